// An entry of an authorization area by value: its nonce and its HMAC are told by where they stand.
ghost use Rattle.std.specs.Prelude.{◌≡◌, []};
ghost use Rattle.frame.specs.Walk.{by_value};

// The most entries that an area has (Part 2, MAX_SESSION_NUM).
pub const MAX_SESSIONS: usize = 3;

// Bytes by their place and their count.
#[repr(C)]
#[derive(Clone, Copy, Default)]
pub struct Field {
    pub at: usize,
    pub size: u16,
}

// An entry of a command; an entry of a response has no handle, and 0 stands there.
#[repr(C)]
#[derive(Clone, Copy, Default)]
pub struct Session {
    pub handle: u32,
    pub nonce: Field,
    pub attributes: u8,
    pub hmac: Field,
}

// How many entries an area has, and the first three: fields and no array, as C has the record by value and names them. So what goes over them
// asks for the count three times, and is no loop.
#[repr(C)]
#[derive(Clone, Copy, Default)]
pub struct Entries {
    pub count: usize,
    pub first: Session,
    pub second: Session,
    pub third: Session,
}

impl Entries {
    pub fn new() -> Self
        ensures { result ≡ by_value [] }
    {
        Entries::default()
    }
}
