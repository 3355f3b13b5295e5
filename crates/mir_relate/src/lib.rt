//! Laws of refinement: the ways to show that one crate refines another, and the layer by which a pass over one body shows it.
//!
//! `Refines` is `mir_semantics`' (`specs/Refines.antt`). It is reflexive and transitive (`refines_reflexive`, `refines_transitive`), and a
//! simulation (`specs/Simulation.antt`: each step of the source is followed by steps of the target) that relates the starts of each entry
//! gives it: `refines_by` of `proofs/Refine.antt`, which a clause cannot state, since it ranges over relations. The functions here run
//! nothing; their contracts are the laws. What each pass keeps is one record, `PassLaws` of `specs/Passes.antt`.
//!
//! # What the layer does, and what a pass does
//!
//! A pass gives one function `f` another body. A run of the source and one of the target are related by `Core` (`specs/Frames.antt`): a renaming
//! `lent` says which local of the target each local stands for that references may point to; each frame of another function has a `Twin`;
//! the frames of `f` are what the pass says. The layer does every step of other functions (calls, drops, destructors, outside calls, returns),
//! and keeps what the pass said of a frame of `f` that waits. A pass gives a `Pass` and shows its `Laws` (`specs/Pass.antt`); `law`
//! (`proofs/BodyLaw.antt`) makes a refinement of it, and `replaced` (`proofs/Replaced.antt`) one of valid crates, where nothing else is left
//! to show.
//!
//! # How to write a pass
//!
//! A pass is one crate: its definition in `specs/`, its code, and in `proofs/` that the code gives the definition (`equal`), that the result
//! refines (`refines`) and that it is valid (`valid`).
//!
//! Where the new body does what the old one did, at places that stand for each other, a pass shows no more than the record `Mirrors`
//! (`proofs/Mirror.antt`): the home of each local that is kept, which place stands for which, and that both have the same text there, or the
//! source has a goto or storage that goes. `pass` of that file and `laws` of `proofs/MirrorSteps.antt` are then its `Pass` and its `Laws`.
//! `cfg_simplify` and `trim_locals` are such passes.
//!
//! Where the new body keeps each local, and lends the same ones from the start, a pass says the rest in two records (`proofs/EachLocal.antt`): `Words`,
//! what it knows of a frame that runs and of one that waits, and `Lasting`, that this begins, lasts and comes back. `pass` and `frames` of that file are
//! its `Pass` and its `FrameLaws`, and `Moment` (`proofs/Moment.antt`) is what both frames at work have, so only steps 1 and 6 are left.
//! `const_rewrite` and `jump_threading` are such passes. Any other one takes the steps by which these files show it:
//!
//! 1. **Say what a running frame is**, `own n j c2 c1 gs m2 m1`, with memories `m2`, `m1` of target and source: where both controls stand, and what
//!    is known of values *beside* what `lent` (here `j`) relates. There `Stand` says: both in `f`, at places that stand for each other; `j` maps
//!    each local of the source's frame that has a home to it, and nothing else to a local of the target's frame; `AgreesBy` says that units of
//!    drop have holes at the same places. `n` falls where the target stands still. `gs` is empty unless several frames of the source stand in
//!    one of the target (inlining).
//! 2. **Say what a waiting one is**, `waits j d2 d1 c2 c1 gs m2 m1`: the same, and where the result goes on both sides (`DestsRel j d1 d2`; a pass
//!    whose result may go to a local that isn't lent has a record of its own, `Awaits` of `dead_store`).
//! 3. **Say which local of the target a lent one becomes**: `place`. There `B`; `λ x. if lent x then Some x else None` where only lent ones count.
//! 4. **Show `KeptLaw`**: what waits is kept by all that `Leaves` the locals that nobody has lent (`specs/Leaves.antt`). One fact about values, once
//!    for all kinds of steps. `stand_kept`, `agrees_by`, `holds_kept` are its parts.
//! 5. **Show `FrameLaws`**: `once` and `slots` (arguments and blanks of a new frame are related), `begins` (so `own` holds), `resumes` (another
//!    function returns to it: write the result by `store_leaves`, `store_near` or a lemma of your own, then `back_core`).
//! 6. **Show `steps`**, a step of `f`. What any pass knows of its frames is in `proofs/Running.antt`. First choose a relation `Q` between memories
//!    that paired writes keep (`Kept`); `Near` of `proofs/Near.antt` is one for any renaming `K` above `j`. Then
//!    - a statement that both do: `exec_as`, from `StmtAs` (`Itself` where the text is the same; `assign_as` where the rvalue is another);
//!    - a statement that the source does alone: `eval_alone`, and `leaves_source` for its write; answer with 0 moves and a smaller `n`;
//!    - operands of other text: `copied_for_move`, `known` (`proofs/Operands.antt`), all rvalues by `likewise`;
//!    - a terminator that both do: `same_step_goes` (`proofs/Own.antt`), or `step_if_goes` where an edge must be told which number was read or
//!      what the operands of a call left; a `drop` by `work_off_goes` of `proofs/Visits.antt`;
//!    - end each by `own_core`, which asks for `Left` (what is lent is related, and the frames below are left) and for `own` at the new place.
//! 7. **`replaced`** with the pass and its laws is the refinement.
//!
//! # Files
//!
//! - Text: `specs/Alike.antt`, `proofs/Alike.antt` (what is made of parts that do alike does alike), `proofs/Kept.antt` (the same text, any `Q` that
//!   paired writes keep), `proofs/Itself.antt` (each local stands for the one of its number), `proofs/Numbered.antt` (for one of another number),
//!   `proofs/Operands.antt`, `proofs/Alone.antt`.
//! - Memories: `specs/Leaves.antt`, `proofs/Leaves.antt`, `proofs/Opens.antt` (what steps leave), `proofs/Near.antt` (a ready `Q`),
//!   `proofs/Living.antt` (frames of which some locals live), `specs/Mild.antt`, `proofs/Mild.antt` (what steps may do to units of drop below them).
//! - Frames: `specs/Frames.antt`, `proofs/Single.antt` (one frame for one), `proofs/SameLocals.antt`, `proofs/Own.antt`, `proofs/Visits.antt` (drops of
//!   any frame), `proofs/Running.antt` (the frames at work), `proofs/Mirror.antt` and `proofs/MirrorSteps.antt` (a body that mirrors another one),
//!   `proofs/EachLocal.antt` and `proofs/Moment.antt` (a body that keeps each local).
//! - Runs: `specs/Pass.antt`, `proofs/Stacks.antt`, `proofs/Enter.antt`, `proofs/Drops.antt`, `proofs/Returns.antt`, `proofs/Others.antt` (steps of
//!   all other functions), `proofs/BodyLaw.antt`; valid crates: `proofs/Rules.antt`, `proofs/Needs.antt`, `proofs/Replaced.antt`.
#![tactic(auto)]

ghost use Rattle.mir_syntax.specs.Crate.{Crate};
ghost use Rattle.mir_semantics.specs.Refines.{Refines};

/// A crate refines itself.
pub fn refines_reflexive()
    ensures { (c : Crate) → Refines c c }
{}

/// What refines a crate that refines another one refines that other one.
pub fn refines_transitive()
    ensures { (a b c : Crate) → Refines a b → Refines b c → Refines a c }
{}
