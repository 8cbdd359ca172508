//! What stands in the pieces of a stream, over any responses.
//!
//! It is generic in these, since what is derived over a type parameter is proved in a tenth of the time. Callers have
//! it at responses with owned texts alone: `stream::Whole`.

use crate::stream::End;

/// What stands in the pieces of a stream.
#[derive(Debug, Drop, PartialEq, Eq)]
pub struct Whole<R> {
    /// The responses, one behind another, with all their texts owned.
    pub responses: Vec<R>,
    /// The bytes behind them.
    pub rest: Vec<u8>,
    /// Why these give no response; `Waits` where there are none.
    pub end: End,
}
