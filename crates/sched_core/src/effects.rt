//! What each event does to the fields of a core.
ghost use Rattle.std.specs.Prelude.{◌≡◌, ◌≢◌, ℕ, ◌+◌, ◌-◌, ◌<◌, ◌∷◌, List, length, slice_get, true, false, Some, None};

use crate::Status;
use crate::rows::{give_top, mark, pop_top};
use crate::state::{Core, Standing};

impl Core {
    ghost use Rattle.sched_core.specs.Plan.{Plan};
    ghost use Rattle.sched_core.specs.State.{Entry, settled};
    ghost use Rattle.sched_core.specs.Shown.{state_of, row_at, has_room, has_given_room, Happens};
    ghost use Rattle.sched_core.specs.declared.Status.TheVariants.{Done, Failed};
    ghost use Rattle.sched_core.specs.declared.Event.TheVariants.{Claim, Look, Borrow, Release, Steal, Publish, Fail, Draw};

    pub(crate) fn put_claim(&mut self, w: u32, q: u32)
        requires worker { (w < length self.old.borrow.items) × (length self.old.stacks.items ≡ length self.old.borrow.items) × (length self.old.wait.items ≡ length self.old.borrow.items) × (length self.old.told.items ≡ length self.old.borrow.items) }
        requires query { q < length self.old.status.items }
        requires room { has_room (slice_get self.old.stacks.items w) }
        ensures { (p : Plan) → Happens p self.old self.new (Claim w q) }
    {
        self.status[q as usize] = Status::Claimed(w);
        self.wait[w as usize] = None;
        self.told[w as usize] = None;
        let entry = Standing {
            query: q,
            given: Vec::new(self.alloc),
        };
        self.stacks[w as usize].push_reserved(entry);
    }

    pub(crate) fn put_draw(&mut self, w: u32, root: u32)
        requires worker { (w < length self.old.root.items) × (w < length self.old.wait.items) }
        requires count { self.old.drawn < 4294967295 }
        ensures { (p : Plan) → root ≡ p.root self.old.drawn → Happens p self.old self.new (Draw w) }
    {
        self.wait[w as usize] = None;
        self.root[w as usize] = Some(root);
        self.drawn += 1;
    }

    // The slot then has `count` borrowers.
    pub(crate) fn put_borrow(&mut self, w: u32, s: u32, count: u32)
        requires worker { (w < length self.old.borrow.items) × (w < length self.old.wait.items) }
        requires query { s < length self.old.status.items }
        ensures { (p : Plan) (b : ℕ) → (state_of self.old).status s ≡ Done b → count ≡ b + 1 → Happens p self.old self.new (Borrow w s) }
    {
        self.wait[w as usize] = None;
        self.status[s as usize] = Status::Done(count);
        self.borrow[w as usize] = Some(s);
    }

    // The slot then has `count` borrowers.
    pub(crate) fn put_release(&mut self, w: u32, s: u32, count: u32)
        requires worker { (w < length self.old.stacks.items) × (w < length self.old.borrow.items) × (w < length self.old.wait.items) × (w < length self.old.told.items) }
        requires query { s < length self.old.status.items }
        requires room { has_given_room (row_at (slice_get self.old.stacks.items w)) }
        ensures { (p : Plan) (b : ℕ) → (state_of self.old).status s ≡ Done b → count ≡ b - 1 → Happens p self.old self.new (Release w s) }
    {
        self.wait[w as usize] = None;
        self.told[w as usize] = None;
        self.status[s as usize] = Status::Done(count);
        self.borrow[w as usize] = None;
        give_top(&mut self.stacks[w as usize], s);
    }

    // How many workers borrow the slot. Nothing is said of a slot that isn't done.
    pub(crate) fn borrowers(&self, s: u32) -> u32
        requires { s < length self.now.status.items }
        ensures { (b : ℕ) → (state_of self.now).status s ≡ Done b → result ≡ b }
    {
        match self.status[s as usize] {
            Status::Done(count) => count,
            _ => 0,
        }
    }

    pub(crate) fn put_look(&mut self, w: u32, q: u32)
        requires worker { (w < length self.old.seen.items) × (w < length self.old.gone.items) × (w < length self.old.wait.items) }
        requires query { (q < length self.old.status.items) × (q < length (row_at (slice_get self.old.seen.items w))) × (q < length (row_at (slice_get self.old.gone.items w))) }
        ensures { (p : Plan) → Happens p self.old self.new (Look w q) }
    {
        match self.status[q as usize] {
            Status::Done(_) => self.put_seen(w, q),
            Status::Stolen => self.put_seen(w, q),
            Status::Failed => self.put_gone(w, q),
            Status::Unclaimed => self.put_wait(w, q),
            Status::Claimed(_) => self.put_wait(w, q),
        }
    }

    // A look at what is neither done nor stolen nor failed.
    pub(crate) fn put_wait(&mut self, w: u32, q: u32)
        requires { w < length self.old.wait.items }
        ensures { (p : Plan) → settled ((state_of self.old).status q) ≡ false → (state_of self.old).status q ≢ Failed → Happens p self.old self.new (Look w q) }
    {
        self.wait[w as usize] = Some(q);
    }

    // A look at what is done or stolen.
    pub(crate) fn put_seen(&mut self, w: u32, q: u32)
        requires worker { (w < length self.old.seen.items) × (w < length self.old.wait.items) }
        requires query { q < length (row_at (slice_get self.old.seen.items w)) }
        ensures { (p : Plan) → settled ((state_of self.old).status q) ≡ true → Happens p self.old self.new (Look w q) }
    {
        self.wait[w as usize] = None;
        mark(&mut self.seen[w as usize], q);
    }

    // A look at what is failed.
    pub(crate) fn put_gone(&mut self, w: u32, q: u32)
        requires worker { (w < length self.old.gone.items) × (w < length self.old.wait.items) }
        requires query { q < length (row_at (slice_get self.old.gone.items w)) }
        ensures { (p : Plan) → (state_of self.old).status q ≡ Failed → Happens p self.old self.new (Look w q) }
    {
        self.wait[w as usize] = None;
        mark(&mut self.gone[w as usize], q);
    }

    pub(crate) fn put_steal(&mut self, w: u32, s: u32)
        requires worker { w < length self.old.wait.items }
        requires query { s < length self.old.status.items }
        ensures { (p : Plan) → Happens p self.old self.new (Steal w s) }
    {
        self.wait[w as usize] = None;
        self.status[s as usize] = Status::Stolen;
    }

    // The top is q.
    pub(crate) fn put_publish(&mut self, w: u32, q: u32)
        requires worker { (w < length self.old.stacks.items) × (w < length self.old.seen.items) × (w < length self.old.wait.items) × (w < length self.old.told.items) }
        requires query { (q < length self.old.status.items) × (q < length (row_at (slice_get self.old.seen.items w))) }
        ensures { (p : Plan) (given : List ℕ) (es : List Entry) → (state_of self.old).stack w ≡ (q, given) ∷ es → Happens p self.old self.new (Publish w) }
    {
        self.wait[w as usize] = None;
        self.told[w as usize] = None;
        self.status[q as usize] = Status::Done(0);
        pop_top(&mut self.stacks[w as usize]);
        mark(&mut self.seen[w as usize], q);
    }

    // The top is q.
    pub(crate) fn put_fail(&mut self, w: u32, q: u32)
        requires worker { (w < length self.old.stacks.items) × (w < length self.old.gone.items) × (w < length self.old.wait.items) × (w < length self.old.told.items) }
        requires query { (q < length self.old.status.items) × (q < length (row_at (slice_get self.old.gone.items w))) }
        ensures { (p : Plan) (given : List ℕ) (es : List Entry) → (state_of self.old).stack w ≡ (q, given) ∷ es → Happens p self.old self.new (Fail w) }
    {
        self.wait[w as usize] = None;
        self.told[w as usize] = None;
        self.status[q as usize] = Status::Failed;
        pop_top(&mut self.stacks[w as usize]);
        mark(&mut self.gone[w as usize], q);
    }
}
