//! Blocks that two threads can have.
ghost use Rattle.std.specs.Prelude.{◌≡◌, ◌↔◌, ⊤, Some, IfNone, IfSome, IsTrue};

use crate::jobs::Jobs;
use crate::one_job::OneJob;

/// A block that a drive can keep while another thread runs it, and compare with the one that comes back.
pub trait Shared: Jobs {
    /// A copy may be lacking where there was no memory for it. Of blocks whose copies take none their type says that none
    /// is ever lacking.
    ghost may_lack: { Type 0 } = { ⊤ };

    /// Both are one block, and `same` knows it. It may hold of no two blocks of a type that doesn't say when its blocks are
    /// known; where it holds of a block and itself, it holds of the block and its copies.
    ghost alike: { Self → Self → Type 0 } = { λ one other. ⊥ };

    /// Whether both are known to stand for the same jobs. Two blocks that do aren't always known to, but those that are alike
    /// are.
    fn same(&self, other: &Self) -> bool
        ensures jobs { IsTrue result → Self.jobs self.now ≡ Self.jobs other.now }
        ensures known { alike self.now other.now → IsTrue result };

    /// Another block of the same jobs, or none where there is no memory for it.
    fn copy(&self) -> Option<Self>
        ensures copied { IfSome result (λ copy. Self.jobs copy ≡ Self.jobs self.now) }
        ensures alike { IfSome result (λ copy. alike self.now self.now → alike self.now copy) }
        ensures lacks { IfNone result may_lack };
}

impl Shared for OneJob {
    ghost may_lack = { ⊥ };

    ghost alike = { λ one other. one ≡ other };

    /// Whether both have the same job.
    fn same(&self, other: &OneJob) -> bool
        ensures { IsTrue result ↔ (self.now ≡ other.now) }
    {
        self.job.same(&other.job)
    }

    /// A block of the same job. It takes no memory.
    fn copy(&self) -> Option<OneJob>
        ensures { result ≡ Some self.now }
    {
        Some(OneJob {
            job: self.job.copy(),
        })
    }
}
