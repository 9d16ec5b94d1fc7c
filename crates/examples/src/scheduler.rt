//! A scheduler of tasks, each with a number of steps left. The tasks lie in a slot table, the keys of those that are ready in a
//! queue.
ghost use Rattle.std.specs.Prelude.{◌≡◌, ◌≢◌, ◌↔◌, ◌+◌, ◌≤◌, ℕ, [], None, Some, IsTrue, IsSome, IsNone, IfSome, length};
ghost use Rattle.std.specs.Bool.{OnFalse};
ghost use Rattle.ix_maps.specs.SlotTableState.{value_at, held_count, slot_table_new, IsFree, IsHeld};
ghost use Rattle.examples.specs.Tasks.{AreReady, steps_left};

use ix_maps::{FixedSizeQueue, FixedSizeSlotTable, SlotTableKey};

/// The numbers of steps that at most 16 tasks have left.
pub type Tasks = FixedSizeSlotTable<u32, 16>;

/// The keys of tasks, the one whose turn is next first.
pub type Ready = FixedSizeQueue<SlotTableKey, 16>;

/// Tasks, and those that are ready. Each task with steps left is ready.
#[derive(Drop)]
pub struct Scheduler {
    pub tasks: Tasks,
    pub ready: Ready,
    pub ghost are_ready: { AreReady tasks ready.items },
    pub ghost as_many: { length ready.items ≤ held_count tasks },
}

impl Scheduler {
    /// Creates a scheduler without a task.
    pub fn new() -> Self
        ensures tasks { result.tasks ≡ slot_table_new 16 }
        ensures ready { result.ready.items ≡ [] }
    {
        Scheduler {
            tasks: Tasks::new(),
            ready: Ready::new(),
        }
    }

    /// Adds a task with so many steps and returns its key, or `None` if there are 16 tasks already.
    pub fn spawn(&mut self, steps: u32) -> Option<SlotTableKey>
        ensures added { IfSome result (λ key. value_at self.new.tasks key ≡ Some steps) }
        ensures was_free { IfSome result (IsFree self.old.tasks) }
        ensures kept { (other : ℕ) → IsHeld self.old.tasks other
            → value_at self.new.tasks other ≡ value_at self.old.tasks other }
        ensures full { IsNone result ↔ (self.old.tasks.free ≡ []) }
        ensures refused { IsNone result → self.new ≡ self.old }
        ensures count { IsSome result → held_count self.new.tasks ≡ held_count self.old.tasks + 1 }
    {
        let key = self.tasks.insert(steps)?;
        // No more keys are ready than there are tasks.
        let pushed = self.ready.push(key);
        prove!(pushed);
        Some(key)
    }

    /// Makes a step of each task in turn until all of them are done. All tasks are still there then, with no step left.
    pub fn run(&mut self)
        ensures done { (key : ℕ) → IsHeld self.old.tasks key → value_at self.new.tasks key ≡ Some 0 }
        ensures free { self.new.tasks.free ≡ self.old.tasks.free }
        ensures idle { self.new.ready.items ≡ [] }
    {
        run_ready(&mut self.tasks, &mut self.ready);
    }

    /// Removes a task and returns `true`. Returns `false` if there is no such task, and while a task is ready: before a run.
    pub fn remove(&mut self, key: SlotTableKey) -> bool
        ensures value { IsTrue result
            ↔ ((self.old.ready.items ≡ []) × IsHeld self.old.tasks key) }
        ensures gone { IsTrue result → value_at self.new.tasks key ≡ None }
        ensures done { IsTrue result → value_at self.old.tasks key ≡ Some 0 }
        ensures refused { OnFalse result (self.new ≡ self.old) }
        ensures kept { (other : ℕ) → other ≢ key
            → value_at self.new.tasks other ≡ value_at self.old.tasks other }
    {
        self.ready.is_empty() && self.tasks.remove(key).is_some()
    }
}

/// Makes steps until no task is ready.
fn run_ready(tasks: &mut Tasks, ready: &mut Ready)
    requires { AreReady tasks.old ready.old.items }
    ensures done { (key : ℕ) → IsHeld tasks.old key → value_at tasks.new key ≡ Some 0 }
    ensures free { tasks.new.free ≡ tasks.old.free }
    ensures idle { ready.new.items ≡ [] }
    ensures are_ready { AreReady tasks.new ready.new.items }
{
    while let Some(key) = ready.pop() {
        if step(tasks, key) {
            let pushed = ready.push(key);
            prove!(pushed);
        }
    }
}

/// Makes a step of a task and returns `true`. Returns `false` if it has none left, or if there is no such task.
fn step(tasks: &mut Tasks, key: SlotTableKey) -> bool
    ensures fewer { IsTrue result → steps_left tasks.new + 1 ≡ steps_left tasks.old }
    ensures none { OnFalse result (tasks.new ≡ tasks.old) }
    ensures done { OnFalse result (IfSome (value_at tasks.old key) (λ left. left ≡ 0)) }
    ensures held { (other : ℕ) → IsHeld tasks.old other → IsHeld tasks.new other }
    ensures kept { (other : ℕ) → other ≢ key → value_at tasks.new other ≡ value_at tasks.old other }
    ensures free { tasks.new.free ≡ tasks.old.free }
{
    match tasks.get_mut(key) {
        Some(left) if *left > 0 => {
            *left -= 1;
            true
        }
        _ => false,
    }
}
