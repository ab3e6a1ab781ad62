// The duty to close a held save. It bears the depth and no more, and can be neither dropped nor spent twice.
pub struct Token {
    pub(crate) depth: u32,
}
