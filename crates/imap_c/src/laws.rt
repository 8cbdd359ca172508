//! Laws of cursors, as contracts of functions that do nothing.

ghost use Rattle.imap_c.specs.Cursors.{FitsAnew, FitsMore, FitsLess};

/// A cursor at any place of a buffer, with nothing wanted, is one of its bytes. A cursor stays one of its buffer's
/// bytes where bytes are put behind them, and where bytes in front of its start are dropped, with as many taken from
/// its start.
#[tactic(auto, using(crate::proofs::Moving::fits_anew))]
pub fn cursors()
    ensures anew { FitsAnew }
    ensures more { FitsMore }
    ensures less { FitsLess }
{}
