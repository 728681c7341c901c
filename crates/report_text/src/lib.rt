// The report of a scene as text: a line for each pair of regions, or one line for a refusal.
#![tactic(auto)]

mod lines;

ghost use Rattle.std.specs.Prelude.{◌≡◌, ℕ, ◌*◌, ◌^◌, ◌≤◌, ◌<◌, length, get_or};
ghost use Rattle.relation.specs.Sets.{size};
ghost use Rattle.answer.specs.Ending.{accepted};
ghost use Rattle.refinement.specs.Refine.{refine};
ghost use Rattle.text.specs.Put.{AddsOn};
ghost use Rattle.report_text.specs.Class.{letter_of, class_of};
ghost use Rattle.report_text.specs.Report.{Reported};

use filing::{LENT_CELLS, LENT_IDENTIFIERS};
use lines::{Pairs, put_accepted, put_contradiction, put_refusal};
use relation::RelationSet;
use text::Page;

// How much is known of a pair, by what was stated of it in both directions together.
#[derive(Clone, Copy, PartialEq, Eq, Debug)]
pub enum Class {
    // One relation was stated.
    Observed,
    // One is left of more.
    Determined,
    // Fewer are left.
    Enhanced,
    // All that were stated are left.
    AsStated,
    // All eight are left: nothing is known.
    Unknown,
}

// The letter of a class in a report.
impl From<Class> for u8 {
    ghost use Rattle.report_text.specs.Class.{letter_of};

    ghost from_gives = { λ class letter. letter ≡ letter_of class };

    fn from(class: Class) -> u8 {
        match class {
            Class::Observed => b'O',
            Class::Determined => b'D',
            Class::Enhanced => b'E',
            Class::AsStated => b'S',
            Class::Unknown => b'U',
        }
    }
}

// The class of a pair, by its set after the arc rule and its refined set.
#[tactic(auto, unfolding(crate::specs::Class::class_of))]
pub fn class_of(arc: RelationSet, refined: RelationSet) -> Class
    ensures { letter_of result ≡ class_of (size arc.0) (size refined.0) }
{
    match (arc.size(), refined.size()) {
        (1, _) => Class::Observed,
        (_, 1) => Class::Determined,
        (before, after) if after < before => Class::Enhanced,
        (_, after) if after < 8 => Class::AsStated,
        _ => Class::Unknown,
    }
}

// A scene that was read: its regions by their identifiers, and for each cell what was stated and its mark. `n` is the matrix's side;
// of `identifiers` the whole area stays, since `Reported` looks a region up by its place alone.
// No matrix inside: `n` is the side of the marks too, so one would only be one more field to reach through.
#[derive(Clone, Copy)]
pub(crate) struct Stated<'a> {
    n: usize,
    identifiers: &'a [u32],
    cells: &'a [u8],
    marks: &'a [u16],
    ghost some: { 1 ≤ n },
    ghost few: { n ≤ 64 },
    ghost cells_square: { length cells.now ≡ n * n },
    ghost marks_square: { length marks.now ≡ n * n },
    ghost identifiers_fit: { (k : ℕ) → get_or identifiers.now k 0 < 2 ^ 32 },
    ghost marks_fit: { (k : ℕ) → get_or marks.now k 0 < 2 ^ 16 },
}

impl<'a> Stated<'a> {
    ghost use Rattle.report_text.specs.Inner.{InFront, report_by, Reports};

    // What stands in front of the areas that a scene of n regions was read into.
    fn in_front(n: usize, identifiers: &'a [u32], cells: &'a [u8], marks: &'a [u16]) -> Stated<'a>
        requires some { 1 ≤ n }
        requires few { n ≤ 64 }
        requires cells_long { n * n ≤ length cells.now }
        requires marks_long { n * n ≤ length marks.now }
        ensures { InFront n identifiers.now cells.now marks.now result }
    {
        Stated {
            n,
            identifiers,
            cells: &cells[..n * n],
            marks: &marks[..n * n],
        }
    }

    // The report of an accepted matrix; the arc stage that its letters go by is made by preparing it once more.
    fn put_network(&self, page: &mut Page, network: &[u8], rounds: usize)
        requires { refine self.now.n self.now.cells.now ≡ accepted network.now rounds }
        ensures { AddsOn (report_by self.now (accepted network.now rounds)) page.old page.new }
    {
        let mut first = [0u8; LENT_CELLS];
        let mut second = [0u8; LENT_CELLS];
        let _ = network::prepare(self.n, self.cells, &mut first, &mut second);
        put_accepted(page, self.n, rounds);
        let pairs = Pairs {
            stated: *self,
            arcs: &first[..self.n * self.n],
            network,
        };
        pairs.put_all(page);
    }

    // The report of the refinement of what was stated.
    fn put_refined(&self, page: &mut Page)
        ensures { Reports (report_by self.now (refine self.now.n self.now.cells.now)) page.old page.new }
    {
        let mut first = [0u8; LENT_CELLS];
        let mut second = [0u8; LENT_CELLS];
        let verdict = network::refine(self.n, self.cells, &mut first, &mut second);
        match verdict {
            Ok(accepted) => {
                let network = network::network(&first, &second, verdict);
                self.put_network(page, network, accepted.rounds);
            }
            Err(unrefined) => put_contradiction(page, self.identifiers, unrefined),
        }
    }
}

// The whole report of a scene, from the beginning of a buffer on that has room for every report; the number of its bytes.
pub fn report(scene: &[u8], buffer: &mut [u8; 131072]) -> usize
    ensures { Reported scene.now buffer.old buffer.new result }
{
    let mut identifiers = [0u32; LENT_IDENTIFIERS];
    let mut cells = [0u8; LENT_CELLS];
    let mut marks = [0u16; LENT_CELLS];
    let mut page = Page { buffer, at: 0 };
    match scene::read(scene, &mut identifiers, &mut cells, &mut marks) {
        Ok(n) => Stated::in_front(n, &identifiers, &cells, &marks).put_refined(&mut page),
        Err(unread) => put_refusal(&mut page, scene::numbers::of_reading(Err(unread))),
    }
    page.at
}
