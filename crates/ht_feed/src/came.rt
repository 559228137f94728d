//! What a reader of blocks answers.

/// What comes next of an input: the head of a frame, a block of the frame that began last, or the end.
#[derive(Debug, Drop)]
pub enum Came<H, B> {
    /// A frame begins.
    Head(H),
    /// Jobs of the frame that began last.
    Block(B),
    /// The input is whole, and ended behind what came.
    End,
}
