// The nine refusals, under the names of the crate's TpmError. Document 01 gives each its number and the order of its
// fields (specs/Error.antt), document 02 the area of the frame that it speaks of.
ghost use Rattle.std.specs.Prelude.{◌≡◌};
ghost use Rattle.base.specs.declared.error.WriteError.TheVariants.{Common};
ghost use Rattle.base.specs.Error.{area_number};

// The area of a frame; none for a writer and for a call that has no frame.
#[derive(Clone, Copy)]
pub enum Area {
    None,
    Header,
    Handles,
    Authorization,
    Parameters,
}

impl Area {
    // The number of an area, from 0 in the order of the variants: C counts areas by it.
    pub fn number(self) -> u32
        ensures { result ≡ area_number self }
    {
        self as u32
    }
}

// The eight that readers, setters, buffers and writers share.
#[derive(Clone, Copy)]
pub enum TpmError {
    UnexpectedEnd {
        area: Area,
        offset: usize,
        needed: usize,
        available: usize,
    },
    TrailingData {
        area: Area,
        offset: usize,
        actual: usize,
    },
    InvalidTag {
        area: Area,
        offset: usize,
        value: u64,
    },
    InvalidCc {
        area: Area,
        offset: usize,
        value: u64,
    },
    InvalidRc {
        area: Area,
        offset: usize,
        value: u64,
    },
    TooManyItems {
        area: Area,
        offset: usize,
        limit: usize,
        actual: usize,
    },
    TooManyBytes {
        area: Area,
        offset: usize,
        limit: usize,
        actual: usize,
    },
    BufferOverflow {
        area: Area,
        offset: usize,
        needed: usize,
        available: usize,
    },
}

// What a writer refuses with: one of those, or a total that its field cannot hold.
#[derive(Clone, Copy)]
pub enum WriteError {
    Common(TpmError),
    IntegerTooLarge { offset: usize, value: u64 },
}

impl From<TpmError> for WriteError {
    ghost from_gives = { λ e r. r ≡ Common e };

    fn from(e: TpmError) -> WriteError {
        WriteError::Common(e)
    }
}
