//! The end of a run: a reply is put.
ghost use Rattle.std.specs.Prelude.{◌≡◌, ◌≢◌};
ghost use Rattle.waldo_run.specs.Run.{IsUnchanged, Puts};
ghost use Rattle.fault_count.specs.Streams.{change};

use crate::reply::Reply;
use report_lines::{Sink, text};
use std::alloc::Global;

/// Puts the text of a reply, and says with what status the run ends.
pub(crate) fn finish<K: Sink>(alloc: Global, reply: &Reply, sink: &mut K) -> u8
    ensures memory { result ≡ 6 → IsUnchanged (change K.sight sink.old sink.new) }
    ensures puts { result ≢ 6 → Puts reply.now (change K.sight sink.old sink.new) result }
{
    let Ok(text) = text(alloc, reply.report()) else {
        return 6;
    };
    match sink.put(&text) {
        Ok(()) => reply.status(),
        Err(_) => reply.status_after_failed_put(),
    }
}
