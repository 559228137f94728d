//! What a reader gives in blocks.
use crate::block::SymbolBlock;
use crate::items::FrameHead;

/// What a reader gives in blocks.
#[derive(Debug, Drop)]
pub enum BlockItem {
    /// A frame begins: its triangles were read whole.
    Frame(FrameHead),
    /// Jobs of the frame that began last. The samples of their symbol were read whole.
    Block(SymbolBlock),
    /// The capture is whole, and the input ended behind it.
    Done,
}
