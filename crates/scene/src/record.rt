// One record of a scene, judged against what was said before it.
ghost use Rattle.std.specs.Prelude.{◌≡◌, ◌<◌, ◌≤◌, length, ok_or};
ghost use Rattle.lists.specs.BigEndian.{number_at};
ghost use Rattle.region.specs.Lookup.{identifier};
ghost use Rattle.filing.specs.Said.{naming};
ghost use Rattle.filing.specs.Places.{place_of};
ghost use Rattle.scene.specs.Record.{judged_region, judged_statement, judged_end, record_at};
ghost use Rattle.scene.specs.Inner.{judged_of, unread_of};

use crate::format::{Kind, REGION_BYTES, STATEMENT_BYTES};
use crate::{Refusal, Unread};
use filing::place_of;
use lists::number_at;
use matrix::MOST_REGIONS;
use region::{Identifier, Place};
use relation::RelationSet;

// What a record says.
#[derive(Clone, Copy)]
pub(crate) enum Record {
    Region(Identifier),
    Statement(Place, Place, RelationSet),
    End,
}

// Why a record is refused, and at which byte of the scene.
#[derive(Clone, Copy)]
pub(crate) struct Refused {
    pub(crate) refusal: Refusal,
    pub(crate) offset: usize,
}

impl From<Refused> for Unread {
    ghost from_gives = { λ refused reading. reading ≡ unread_of refused };

    fn from(refused: Refused) -> Unread {
        Unread::Refused(refused.refusal, refused.offset)
    }
}

// A record that begins in a scene, after these identifiers were declared.
#[derive(Clone, Copy)]
struct Begun<'a> {
    scene: &'a [u8],
    declared: &'a [u32],
    at: usize,
    ghost within: { at < length scene.now },
    ghost few: { length declared.now ≤ 64 },
}

impl Begun<'_> {
    // A refusal that names the record's first byte.
    fn refused(&self, refusal: Refusal) -> Refused
        ensures { result ≡ record { refusal = refusal; offset = self.now.at } }
    {
        Refused {
            refusal,
            offset: self.at,
        }
    }

    // The place that an identifier names. Among the most that there may be: with a constant for a bound several are compared at once.
    fn place_named(&self, identifier: Identifier) -> Option<Place>
        ensures { result ≡ place_of (naming self.now.declared.now) identifier }
    {
        place_of(self.declared, MOST_REGIONS, identifier)
    }

    // The place that the identifier at an offset names.
    fn place_at(&self, offset: usize) -> Result<Place, Refused>
        ensures { result ≡ ok_or (place_of (naming self.now.declared.now) (identifier (number_at self.now.scene.now offset)))
            (record { refusal = Refusal.NotDeclared; offset = self.now.at }) }
    {
        let identifier = Identifier(number_at(self.scene, offset));
        let found = self.place_named(identifier);
        found.ok_or(self.refused(Refusal::NotDeclared))
    }

    // Behind the kind stands the identifier.
    #[tactic(auto, unfolding(crate::specs::Record::judged_region, crate::specs::Format::length_of))]
    fn region(&self) -> Result<Record, Refused>
        ensures { judged_of result ≡ judged_region self.now.scene.now (naming self.now.declared.now) self.now.at }
    {
        if self.scene.len() - self.at < REGION_BYTES {
            return Err(self.refused(Refusal::CutShort));
        }
        let identifier = Identifier(number_at(self.scene, self.at + 1));
        if identifier.0 == 0 {
            return Err(self.refused(Refusal::IdentifierZero));
        }
        if self.place_named(identifier).is_some() {
            return Err(self.refused(Refusal::DeclaredTwice));
        }
        if MOST_REGIONS <= self.declared.len() {
            return Err(self.refused(Refusal::TooManyRegions));
        }
        Ok(Record::Region(identifier))
    }

    // Behind the kind stand identifier A, identifier B and the set; the places that they name are found, A first.
    #[tactic(auto, unfolding(crate::specs::Record::judged_statement, crate::specs::Format::length_of))]
    fn statement(&self) -> Result<Record, Refused>
        ensures { judged_of result ≡ judged_statement self.now.scene.now (naming self.now.declared.now) self.now.at }
    {
        if self.scene.len() - self.at < STATEMENT_BYTES {
            return Err(self.refused(Refusal::CutShort));
        }
        let from = self.place_at(self.at + 1)?;
        let to = self.place_at(self.at + 5)?;
        let set = RelationSet(self.scene[self.at + 9]);
        if set.is_empty() {
            return Err(self.refused(Refusal::EmptySet));
        }
        Ok(Record::Statement(from, to, set))
    }

    // Nothing stands behind the kind, and nothing may.
    #[tactic(auto, unfolding(crate::specs::Record::judged_end))]
    fn end(&self) -> Result<Record, Refused>
        ensures { judged_of result ≡ judged_end self.now.scene.now (naming self.now.declared.now) self.now.at }
    {
        if self.declared.is_empty() {
            return Err(self.refused(Refusal::NoRegion));
        }
        if self.at + 1 < self.scene.len() {
            return Err(Refused {
                refusal: Refusal::BytesLeft,
                offset: self.at + 1,
            });
        }
        Ok(Record::End)
    }
}

// The record at an offset: the end of the bytes, then the kind, then what the kind asks.
#[tactic(auto, unfolding(crate::specs::Record::record_at))]
pub(crate) fn record_at(scene: &[u8], declared: &[u32], at: usize) -> Result<Record, Refused>
    requires { length declared.now ≤ 64 }
    ensures { judged_of result ≡ record_at scene.now (naming declared.now) at }
{
    let Some(byte) = scene.get(at) else {
        return Err(Refused {
            refusal: Refusal::CutShort,
            offset: scene.len(),
        });
    };
    let begun = Begun {
        scene,
        declared,
        at,
    };
    match Kind::try_from(*byte) {
        Ok(Kind::Region) => begun.region(),
        Ok(Kind::Statement) => begun.statement(),
        Ok(Kind::End) => begun.end(),
        Err(refusal) => Err(begun.refused(refusal)),
    }
}
