//! What holds of every core, whatever the jobs and the order of events. Each law is a function that does nothing and whose clause says it.
ghost use Rattle.sched_core.specs.Plan.{Plan, IsLawful, Reads, next_need};
ghost use Rattle.sched_core.specs.State.{State, Entry, Legal, AllSeen, all_seen, after, start, done};
ghost use Rattle.sched_core.specs.Good.{Good};
ghost use Rattle.sched_core.specs.Turn.{turn, Useful, ripe};
ghost use Rattle.sched_core.specs.Waits.{Chain};
ghost use Rattle.sched_core.specs.Work.{work_left};
ghost use Rattle.sched_core.specs.Table.{why};
ghost use Rattle.sched_core.specs.declared.Status.TheVariants.{Done, Stolen, Failed};
ghost use Rattle.sched_core.specs.declared.Event.{Event};
ghost use Rattle.sched_core.specs.declared.Event.TheVariants.{Fail};
ghost use Rattle.std.specs.Prelude.{◌≡◌, ◌≢◌, ℕ, true, false, List, [], ◌∷◌, ◌<◌, Some, None};

/// Each legal event keeps what is true of the core.
pub fn events_keep_good()
    ensures { (p : Plan) (c : State) (e : Event) → IsLawful p → Good p c → Legal p c e → Good p (after p c e) }
{}

/// No stolen slot is read: who reads what it has seen finds it done, and who steals finds it done without borrowers.
pub fn no_stolen_slot_is_read()
    ensures read { (p : Plan) (c : State) (w : ℕ) (s : ℕ) (e : Entry) (es : List Entry) → IsLawful p → Good p c → c.stack w ≡ e ∷ es → Reads p e.0 s → c.seen w s ≡ true → (b : ℕ) × (c.status s ≡ Done b) }
    ensures stolen { (p : Plan) (c : State) (w : ℕ) (s : ℕ) (e : Entry) (es : List Entry) → IsLawful p → Good p c → c.stack w ≡ e ∷ es → p.steals e.0 ≡ Some s → AllSeen p c w e → c.status s ≢ Stolen → c.status s ≡ Done 0 }
{}

/// No worker waits, over whatever other workers, for itself.
pub fn waits_are_never_circular()
    ensures { (p : Plan) (c : State) (w : ℕ) (us : List ℕ) → IsLawful p → Good p c → Chain c w us w → ⊥ }
{}

/// The turn of a worker is a legal event, or it passes.
pub fn turns_are_legal()
    ensures { (p : Plan) (c : State) (w : ℕ) (e : Event) → IsLawful p → Good p c → w < c.workers → turn p c w ≡ Some e → Legal p c e }
{}

/// While a root is neither done nor failed and no query failed, the turn of some worker is no look, or a look at what is done or stolen and it hasn't seen.
pub fn some_turn_goes_on()
    ensures { (p : Plan) (c : State) (i : ℕ) → IsLawful p → Good p c → ((q : ℕ) → c.status q ≢ Failed) → i < p.roots → 0 < c.workers → done (c.status (p.root i)) ≡ false → (w : ℕ) × (w < c.workers) × (e : Event) × (turn p c w ≡ Some e) × Useful c e }
{}

/// A new core is good.
pub fn new_core_is_good()
    ensures { (p : Plan) (workers : ℕ) → Good p (start workers) }
{}

/// Each event that goes on, and is no failure, leaves less to do.
pub fn what_goes_on_leaves_less()
    ensures { (p : Plan) (c : State) (e : Event) → IsLawful p → Good p c → Legal p c e → Useful c e → ((w : ℕ) → e ≢ Fail w) → work_left p (after p c e) < work_left p c }
{}

/// There is no reason against an event exactly where it is legal.
pub fn no_reason_is_legal()
    ensures legal { (p : Plan) (c : State) (e : Event) → why p c e ≡ None → Legal p c e }
    ensures none { (p : Plan) (c : State) (e : Event) → Legal p c e → why p c e ≡ None }
{}

/// In a good core, whether all needs of a top are seen shows in its next need.
pub fn ripeness_shows()
    ensures { (p : Plan) (c : State) (w : ℕ) (e : Entry) (es : List Entry) → IsLawful p → Good p c → c.stack w ≡ e ∷ es → all_seen p c w e ≡ ripe (next_need (p.needs e.0) e.1) (p.steals e.0) (c.seen w) }
{}
