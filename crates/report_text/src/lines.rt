// The lines of a report, each put on the page if there is room for it.
ghost use Rattle.std.specs.Prelude.{◌≡◌, [], ◌∷◌, ◌+◌, ◌-◌, ◌*◌, ◌<◌, length};
ghost use Rattle.text.specs.Decimal.{decimal};
ghost use Rattle.text.specs.Line.{line};
ghost use Rattle.text.specs.Put.{AddsOn};
ghost use Rattle.network.specs.Numbers.{answer_of};
ghost use Rattle.report_text.specs.Contradicts.{Contradicts};
ghost use Rattle.report_text.specs.Report.{accepted_line, refusal_line, answer_line};

use crate::{Stated, class_of};
use answer::Numbers;
use network::{Contradiction, Unrefined};
use region::{Place, identifier_at};
use relation::RelationSet;
use text::Page;

// A space and a number.
fn put_field(page: &mut Page, number: usize)
    ensures { AddsOn (32 ∷ decimal number) page.old page.new }
{
    page.put_word(b" ");
    page.put_decimal(number);
}

// The first line of an accepted scene: the number of regions and the rounds.
pub(crate) fn put_accepted(page: &mut Page, regions: usize, rounds: usize)
    ensures { AddsOn (accepted_line regions rounds) page.old page.new }
{
    page.put_word(b"accepted");
    put_field(page, regions);
    put_field(page, rounds);
    page.put_word(b"\n");
}

// The one line of a refusal: its number and three fields.
pub(crate) fn put_refusal(page: &mut Page, numbers: Numbers)
    ensures { AddsOn (refusal_line numbers.number numbers.first numbers.second numbers.third) page.old page.new }
{
    page.put_word(b"refused");
    // The library has no `From<u32>` for usize; so too of identifiers below.
    put_field(page, numbers.number as usize);
    put_field(page, numbers.first);
    put_field(page, numbers.second);
    put_field(page, numbers.third);
    page.put_word(b"\n");
}

// The line of a refinement that ran into a contradiction: it names regions by their identifiers.
pub(crate) fn put_contradiction(page: &mut Page, identifiers: &[u32], unrefined: Unrefined)
    requires { Contradicts unrefined }
    ensures { AddsOn (answer_line identifiers.now (answer_of (Err unrefined))) page.old page.new }
{
    let Unrefined::Refused(contradiction, _) = unrefined else {
        unreachable!();
    };
    let name = |place| identifier_at(identifiers, place).0 as usize;
    let (first, second, third) = match contradiction {
        Contradiction::Region(i) => (name(i), 0, 0),
        Contradiction::Pair(i, j) => (name(i), name(j), 0),
        Contradiction::Triple(i, k, j) => (name(i), name(k), name(j)),
    };
    let numbers = network::numbers::of_verdict(Err(unrefined));
    put_refusal(
        page,
        Numbers {
            first,
            second,
            third,
            ..numbers
        },
    );
}

// What the lines of pairs say of a scene: of each cell the set after the arc rule and the refined set, beside what was stated.
#[derive(Clone, Copy)]
pub(crate) struct Pairs<'a> {
    pub(crate) stated: Stated<'a>,
    pub(crate) arcs: &'a [u8],
    pub(crate) network: &'a [u8],
    ghost arcs_square: { length arcs.now ≡ stated.n * stated.n },
    ghost network_square: { length network.now ≡ stated.n * stated.n },
}

impl Pairs<'_> {
    ghost use Rattle.report_text.specs.Inner.{line_of, row_lines, lines_below};

    // The line of the pair of regions at two places: their identifiers, the refined set, the class and the marks there and back.
    fn put_pair(&self, page: &mut Page, i: usize, j: usize)
        requires { (i < self.now.stated.n) × (j < self.now.stated.n) }
        ensures { AddsOn (line_of self.now i j) page.old page.new }
    {
        let n = self.stated.n;
        let first = identifier_at(self.stated.identifiers, Place(i));
        let second = identifier_at(self.stated.identifiers, Place(j));
        let arc = RelationSet(self.arcs[i * n + j]);
        let refined = RelationSet(self.network[i * n + j]);
        let there = self.stated.marks[i * n + j];
        let back = self.stated.marks[j * n + i];
        page.put_decimal(first.0 as usize);
        put_field(page, second.0 as usize);
        put_field(page, usize::from(refined.0));
        page.put_word(&[b' ', class_of(arc, refined).into()]);
        put_field(page, usize::from(there));
        put_field(page, usize::from(back));
        page.put_word(b"\n");
    }

    // The lines of the pairs of a region with those behind it.
    fn put_row(&self, page: &mut Page, i: usize)
        requires { i < self.now.stated.n }
        ensures { AddsOn (row_lines self.now i (self.now.stated.n - (i + 1))) page.old page.new }
    {
        for j in i + 1..self.stated.n {
            self.put_pair(page, i, j);
        }
    }

    // The lines of all pairs, in row order.
    pub(crate) fn put_all(&self, page: &mut Page)
        ensures { AddsOn (lines_below self.now (self.now.stated.n * self.now.stated.n)) page.old page.new }
    {
        for i in 0..self.stated.n {
            self.put_row(page, i);
        }
    }
}
