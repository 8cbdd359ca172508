//! Feeds of which a FETCH is kept.

use crate::answers::{Rows, assert_row, says};
use crate::kept::tells;
use crate::{fetches, statuses};
use imap_proto::kept::Front;
use imap_proto::stream::{Feed, FeedError};
use std::alloc::Global;
use std::process::Abort;
use std::test::*;

// Whether the next front of the line is told so, with what is left of it; it waits or is denied as the row says.
fn gives(alloc: Global, feed: &mut Feed, line: &[u8], want: &str) -> bool {
    match feed.next_kept() {
        Ok(Some(Front::Fetch(kept))) => {
            let held = matches!(line.get(kept.bytes().len()..), Some(rest) if rest == feed.held());
            held && tells(alloc, &kept, line, want)
        }
        Ok(Some(Front::Other(response))) => says(alloc, Ok((feed.held(), response)), want),
        Ok(None) => want.starts_with("Incomplete") && feed.held() == line,
        Err(FeedError::Denied) => want == "Error" && feed.held() == line,
        Err(FeedError::OutOfMemory) => false,
    }
}

fn is_given(alloc: Global, line: &[u8], want: &str) -> bool {
    let mut feed = Feed::new(alloc);
    feed.feed(line).is_ok() && gives(alloc, &mut feed, line, want)
}

fn assert_given(rt: &impl Abort, alloc: Global, rows: Rows) {
    for (line, want) in rows {
        assert_row(rt, is_given(alloc, line, want), want);
    }
}

#[test]
fn fetches_are_kept(rt: HostRuntime) {
    for rows in &fetches::lines() {
        assert_given(&rt, rt.alloc(), *rows);
    }
}

#[test]
fn statuses_are_given(rt: HostRuntime) {
    for rows in &statuses::lines() {
        assert_given(&rt, rt.alloc(), *rows);
    }
}
