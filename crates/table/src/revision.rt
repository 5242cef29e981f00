// Which table of commands a caller names: the crate's, or that of a revision of the Library.
#[derive(Clone, Copy)]
pub enum Revision {
    Crate,
    Lib138,
    Lib159,
}
