ghost use Rattle.std.specs.Prelude.{◌≡◌, All, IfOk, option_map};
ghost use Rattle.grid_base.specs.Objects.{IsSmall};
ghost use Rattle.grid_base.specs.Limits.{FitsFrame, QueueCallFits};
ghost use Rattle.grid_base.specs.Names.{queue_of};
ghost use Rattle.grid_base.specs.declared.names.ObjectKey.TheVariants.{Queue as QueueName};
ghost use Rattle.grid_base.specs.declared.calls.GridCall.TheVariants.{Queue as QueueOf};
ghost use Rattle.object_store.specs.Records.{Queue as KeptOf};
ghost use Rattle.object_store.specs.Partitions.{record_at};
ghost use Rattle.object_store.specs.Spelling.{effect_bytes};
ghost use Rattle.call_engine.specs.Env.{settings_of};
ghost use Rattle.call_engine.specs.Effects.{step_effect};
ghost use Rattle.call_engine.specs.Executions.{IsExecution};
ghost use Rattle.call_engine.specs.Limits.{IsWithin};

use crate::env::GridEnv;
use fixed_fields::write_reply;
use grid_base::{Bytes, Executed, Memory, Moment, QueueCall, Request};
use object_store::{ObjectStore, write_clear, write_pop, write_push};
use queue_records::{QueueStep, run_queue};
use std::alloc::Global;

/// The bytes of the effect that makes a call's step; none where nothing changes.
fn write_step(alloc: Global, call: &QueueCall, step: QueueStep) -> Result<Option<Bytes>, Memory>
    requires limits { QueueCallFits call.now }
    ensures { IfOk result (λ effect. effect ≡ option_map effect_bytes (step_effect call.now step)) }
{
    match (step, call) {
        (QueueStep::Push, QueueCall::Offer { name, value }) => {
            Ok(Some(write_push(alloc, name, value)?))
        }
        (QueueStep::Same | QueueStep::Push, _) => Ok(None),
        (QueueStep::Pop, _) => Ok(Some(write_pop(alloc, call.queue())?)),
        (QueueStep::Clear, _) => Ok(Some(write_clear(alloc, call.queue())?)),
    }
}

/// Runs a call on the values of its queue, the front first.
fn run_on(
    alloc: Global,
    env: &GridEnv,
    request: &Request,
    call: &QueueCall,
    items: &[Bytes],
    now: Moment,
) -> Result<Executed, Memory>
    requires limits { QueueCallFits call.now }
    requires items { All FitsFrame items.now }
    ensures { IfOk result (IsExecution (settings_of form env.now) (KeptOf items.now) request.now (QueueOf call.now) now) }
{
    let (answer, step) = run_queue(alloc, items, call, env.capacity)?;
    Ok(Executed {
        reply: write_reply(alloc, request.kind, request.correlation, &answer)?,
        effect: write_step(alloc, call, step)?,
        change: None,
    })
}

/// Runs a call on a queue, with one look-up. Copies the value that is answered.
pub(crate) fn execute_on_queue(
    alloc: Global,
    store: &ObjectStore,
    env: &GridEnv,
    request: &Request,
    call: &QueueCall,
    now: Moment,
) -> Result<Executed, Memory>
    requires limits { QueueCallFits call.now }
    requires small { IsSmall IsWithin store.now }
    ensures { IfOk result (IsExecution (settings_of form env.now) (record_at store.now (QueueName (queue_of call.now))) request.now (QueueOf call.now) now) }
{
    match store.queue(call.queue()) {
        Some(queue) => run_on(alloc, env, request, call, queue.as_slice(), now),
        None => run_on(alloc, env, request, call, &[], now),
    }
}
