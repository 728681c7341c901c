// The records of a scene, put one behind the other.
ghost use Rattle.std.specs.Prelude.{◌≡◌, ◌+◌, ◌*◌, ◌≤◌, length};
ghost use Rattle.std.proofs.lemmas.List.Edits.{sets};
ghost use Rattle.scene.specs.Format.{region_record, statement_record};
ghost use Rattle.writer.specs.Scene.{region_records, statement_records, scene_of};
ghost use Rattle.writer.specs.Inner.{Put};

use crate::named::NamedMatrix;
use lists::put_number;
use region::{Identifier, identifier_at};
use relation::RelationSet;
use scene::format::{Kind, REGION_BYTES, STATEMENT_BYTES};

// A buffer and an offset, no cursor: each clause is `sets buffer at ..` of the one lent buffer of which `Writes` speaks.
// A region record from an offset on.
fn put_region(buffer: &mut [u8], at: usize, identifier: Identifier)
    requires { at + 5 ≤ length buffer.old }
    ensures { buffer.new ≡ sets buffer.old at (region_record identifier.0) }
{
    buffer[at] = Kind::Region as u8;
    put_number(buffer, at + 1, identifier.0);
}

// A statement record from an offset on.
fn put_statement(buffer: &mut [u8], at: usize, a: Identifier, b: Identifier, set: RelationSet)
    requires { at + 10 ≤ length buffer.old }
    ensures { buffer.new ≡ sets buffer.old at (statement_record a.0 b.0 set.0) }
{
    buffer[at] = Kind::Statement as u8;
    put_number(buffer, at + 1, a.0);
    put_number(buffer, at + 5, b.0);
    buffer[at + 9] = set.0;
}

// The region records in place order, from the buffer's beginning on. By offsets: after `chunks_exact_mut` a proof knows lengths alone.
fn put_regions(identifiers: &[u32], buffer: &mut [u8])
    requires { 5 * length identifiers.now ≤ length buffer.old }
    ensures { buffer.new ≡ sets buffer.old 0 (region_records identifiers.now) }
{
    for (place, identifier) in identifiers.iter().enumerate() {
        put_region(buffer, REGION_BYTES * place, Identifier(*identifier));
    }
}

impl NamedMatrix<'_> {
    // A statement record for each cell in row order that is not 255, from an offset on.
    fn put_statements(&self, buffer: &mut [u8], start: usize) -> usize
        requires { start + length (statement_records (self.now.n * self.now.n) self.now.n self.now.identifiers.now self.now.cells.now) ≤ length buffer.old }
        ensures { Put self.now.n (self.now.n * self.now.n) self.now.identifiers.now self.now.cells.now buffer.old start buffer.new result }
    {
        let mut at = start;
        for (cell, set) in self.cells.iter().enumerate() {
            if *set != RelationSet::UNIVERSAL.0 {
                let (row, column) = self.regions_of(cell);
                let from = identifier_at(self.identifiers, row);
                let to = identifier_at(self.identifiers, column);
                put_statement(buffer, at, from, to, RelationSet(*set));
                at += STATEMENT_BYTES;
            }
        }
        at
    }

    // The whole scene from the buffer's beginning on.
    pub(crate) fn put_scene(&self, buffer: &mut [u8])
        requires { length (scene_of self.now.n self.now.identifiers.now self.now.cells.now) ≤ length buffer.old }
        ensures { buffer.new ≡ sets buffer.old 0 (scene_of self.now.n self.now.identifiers.now self.now.cells.now) }
    {
        put_regions(self.identifiers, buffer);
        let end = self.put_statements(buffer, REGION_BYTES * self.n);
        buffer[end] = Kind::End as u8;
    }
}
