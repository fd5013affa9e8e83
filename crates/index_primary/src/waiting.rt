//! The operations that wait for a publish, and those that one takes.

ghost use Rattle.std.specs.Prelude.{◌≡◌, ◌≤◌, None, length, IfSome};
ghost use Rattle.documents.specs.Documents.{is_put};
ghost use Rattle.index_primary.specs.Cut.{has_put, after_cut};

use crate::parts::Publish;
use documents::Op;
use nrt_base::List;

// Whether an operation is a put.
fn is_put(op: &Op) -> bool
    ensures { result ≡ is_put op.now }
{
    match op {
        Op::Put(_) => true,
        Op::Delete(_) | Op::Drop(_) => false,
    }
}

/// Whether some operation is a put.
pub(crate) fn is_put_among(ops: &[Op]) -> bool
    ensures { result ≡ has_put ops.now }
{
    ops.iter().any(is_put)
}

/// The publish has ended: its operations wait no longer.
pub(crate) fn end_cut(waiting: &mut List<Op>, publish: &mut Option<Publish>)
    requires { IfSome publish.old (λ f. f.count ≤ length waiting.old) }
    ensures none { publish.new ≡ None }
    ensures rest { waiting.new ≡ after_cut publish.old waiting.old }
{
    if let Some(publish) = publish.take() {
        waiting.cut_first(publish.count);
    }
}
