//! What holds of every queue. The functions compute nothing: their contracts are the laws.

ghost use Rattle.std.specs.Prelude.{ℕ, List};
ghost use Rattle.grid_base.specs.declared.calls.QueueCall.{QueueCall as Call};
ghost use Rattle.queue_records.specs.QueueCalls.{FirstInFirstOut, StaysWithin, LeadsToTheListAfter, StepsWhereItChanges, SizeIsTheLength};

/// Values leave a queue in the order in which they came in.
pub fn every_queue_is_first_in_first_out()
    ensures { (items : List (List ℕ)) (calls : List Call) (capacity : ℕ) → FirstInFirstOut items calls capacity }
{}

/// No call makes a queue longer than its capacity.
pub fn every_queue_stays_within_its_capacity()
    ensures { (items : List (List ℕ)) (calls : List Call) (capacity : ℕ) → StaysWithin items calls capacity }
{}

/// The step of a call makes the list after it, and there is none exactly where the call changes nothing.
pub fn every_step_leads_to_the_list_after()
    ensures leads { (items : List (List ℕ)) (call : Call) (capacity : ℕ) → LeadsToTheListAfter items call capacity }
    ensures changes { (items : List (List ℕ)) (call : Call) (capacity : ℕ) → StepsWhereItChanges items call capacity }
{}

/// A size is the length of the queue, which a capacity keeps below 2^32.
pub fn every_size_is_the_length()
    ensures { (items : List (List ℕ)) (name : List ℕ) (capacity : ℕ) → SizeIsTheLength items name capacity }
{}
