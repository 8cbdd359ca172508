//! Bytes that come in pieces.

ghost use Rattle.std.specs.Prelude.{◌≡◌, ◌++◌, IfOk, IfErr};
ghost use Rattle.imap_grammar.specs.Meaning.{Denies};
ghost use Rattle.imap_grammar.specs.Rule.{meaning};
ghost use Rattle.imap_proto.specs.Lines as rule;
ghost use Rattle.imap_proto.specs.declared.stream.FeedError.TheVariants.{Denied};
ghost use Rattle.imap_proto.specs.Feeds.{Gave};

use imap_proto::Response;
use imap_proto::stream::{Feed, FeedError};

/// Feeds a piece, and gives the response that stands in front then: `None` where more bytes are needed. What the feed
/// holds afterwards is what stands behind that response.
///
/// `Denied`: no response begins with what the feed holds then. It takes memory; `OutOfMemory`: memory ran out, and
/// the piece may have been fed.
pub fn take(feed: &mut Feed, piece: &[u8]) -> Result<Option<Response<'static>>, FeedError>
    ensures given { IfOk result (λ given. Gave (feed.old ++ piece.now) given feed.new) }
    ensures denied { IfErr result (λ e.
        e ≡ Denied → Denies (meaning rule.response) (feed.old ++ piece.now)) }
    ensures kept { IfErr result (λ e. e ≡ Denied → feed.new ≡ feed.old ++ piece.now) }
{
    feed.feed(piece)?;
    feed.next()
}
