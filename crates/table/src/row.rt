// A row of the dispatch table: a command's code, its handles and the handles of its response.
#[derive(Clone, Copy)]
pub struct Row {
    pub code: u32,
    pub handles: u8,
    pub responses: u8,
}
