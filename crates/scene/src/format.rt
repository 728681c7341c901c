// The scene file's format: limit, kinds and lengths.
ghost use Rattle.std.specs.Prelude.{◌≡◌};
ghost use Rattle.scene.specs.Format.{length_of};
ghost use Rattle.scene.specs.Kinds.{byte_of, kind_of};

use crate::Refusal;

// The most bytes that a scene may have.
pub const MOST_BYTES: usize = 32768;

// How many bytes a record has, its kind's byte included.
pub const REGION_BYTES: usize = 5;

pub const STATEMENT_BYTES: usize = 10;

const END_BYTES: usize = 1;

// The kinds of record, each with its byte.
#[derive(Clone, Copy, PartialEq, Eq, Debug)]
pub enum Kind {
    Region = 1,
    Statement = 2,
    End = 3,
}

impl Kind {
    // How many bytes a record of the kind has.
    #[tactic(auto, unfolding(crate::specs::Format::length_of))]
    pub(crate) fn length(self) -> usize
        ensures { result ≡ length_of (byte_of self) }
    {
        match self {
            Kind::Region => REGION_BYTES,
            Kind::Statement => STATEMENT_BYTES,
            Kind::End => END_BYTES,
        }
    }
}

impl TryFrom<u8> for Kind {
    type Error = Refusal;

    ghost try_from_gives = { λ byte kind. kind ≡ kind_of byte };

    fn try_from(byte: u8) -> Result<Kind, Refusal> {
        match byte {
            1 => Ok(Kind::Region),
            2 => Ok(Kind::Statement),
            3 => Ok(Kind::End),
            _ => Err(Refusal::UnknownKind),
        }
    }
}
