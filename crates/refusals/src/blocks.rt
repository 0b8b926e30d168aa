//! Blocks by hand: a block of each kind takes messages, makes what it can of them, and offers that.
ghost use Rattle.std.specs.Prelude.{◌≡◌, ◌<◌, IfOk, OnOk};
ghost use Rattle.flow_link.specs.declared.stage.SourceStage.TheVariants.{Out};
ghost use Rattle.flow_block.specs.Traits.{target_over};
ghost use Rattle.refusals.specs.Rests.{Rests};

use crate::again::{Stop, again, check, refused, wrong};
use crate::parts::header;
use crate::plans::{
    ACTION, BATCH, BATCHED_JOIN, BROADCAST, BUFFER, JOIN, MIDDLE, Middle, RESERVING_JOIN,
    TRANSFORM, TRANSFORM_MANY, WRITE_ONCE, plan,
};
use flow_exec::{EndFault, Job, JobResult};
use flow_kinds::kind::{self, Kind, WorkKind};
use flow_kinds::{BatchedJoin, ReservingJoin, TypedBlock, TypedExecution};
use flow_link::{BlockKind, DataflowBlock, LinkId, MakeFault, SourceBlock, TargetBlock};
use flow_value::{MessageHeader, MessageStatus, Parcel, Steps, Value};
use std::alloc::Global;

/// The target takes this number over this link.
fn take<T: TargetBlock>(
    rt: &impl Print,
    alloc: Global,
    target: &mut T,
    link: LinkId,
    number: i64,
) -> Result<(), Stop>
    requires link { link < 2 }
    requires rests { Rests (T.target_stage target.old) }
    ensures { OnOk result (Rests (T.target_stage target.new)) }
{
    let Ok(parcel) = Parcel::new(alloc, Value::Int(number)) else {
        return Err(Stop::Memory);
    };
    let header = header(rt)?;
    match target.offer_message(alloc, link, header, true) {
        Ok(MessageStatus::Accepted) => {
            target.hand_over(link, header, parcel);
            Ok(())
        }
        Ok(_) => Err(wrong(rt, "TargetBlock::offer_message")),
        Err(_) => {
            refused(rt, "TargetBlock::offer_message", true);
            take_again(alloc, target, link, header, parcel)
        }
    }
}

/// The target takes this message over this link.
fn take_again<T: TargetBlock>(
    alloc: Global,
    target: &mut T,
    link: LinkId,
    header: MessageHeader,
    parcel: Parcel,
) -> Result<(), Stop>
    requires link { link < 2 }
    requires rests { Rests (T.target_stage target.old) }
    ensures { OnOk result (Rests (T.target_stage target.new)) }
{
    let Ok(MessageStatus::Accepted) = target.offer_message(alloc, link, header, true) else {
        return Err(Stop::Memory);
    };
    target.hand_over(link, header, parcel);
    Ok(())
}

/// The target takes 5 over its first link, and 6 over its second where it takes both.
fn take_all<T: TargetBlock>(
    rt: &impl Print,
    alloc: Global,
    target: &mut T,
    middle: &Middle,
) -> Result<(), Stop>
    requires { Rests (T.target_stage target.old) }
{
    take(rt, alloc, target, 0, 5)?;
    if middle.takes_both {
        take(rt, alloc, target, 1, 6)
    } else {
        Ok(())
    }
}

fn make<B: DataflowBlock>(rt: &impl Print, alloc: Global, block: &mut B) -> Result<bool, Stop> {
    again!(rt, "DataflowBlock::make", block.make(alloc), MakeFault::Memory => true)
}

/// The source makes what it can, and gives a number, or a row of so many items.
fn give<S: SourceBlock>(
    rt: &impl Print,
    alloc: Global,
    source: &mut S,
    items: usize,
) -> Result<(), Stop> {
    make(rt, alloc, source)?;
    match source.next_offer(alloc) {
        Ok(Some((link, header))) => hand(rt, source, link, header, items),
        Ok(None) => Err(wrong(rt, "SourceBlock::next_offer")),
        Err(_) => {
            refused(rt, "SourceBlock::next_offer", true);
            give_again(rt, alloc, source, items)
        }
    }
}

fn give_again<S: SourceBlock>(
    rt: &impl Print,
    alloc: Global,
    source: &mut S,
    items: usize,
) -> Result<(), Stop> {
    let Ok(Some((link, header))) = source.next_offer(alloc) else {
        return Err(Stop::Memory);
    };
    hand(rt, source, link, header, items)
}

/// The message that is offered is accepted, and is a number, or a row of so many items.
fn hand<S: SourceBlock>(
    rt: &impl Print,
    source: &mut S,
    link: LinkId,
    header: MessageHeader,
    items: usize,
) -> Result<(), Stop>
    requires { S.source_stage source.old link ≡ Out header }
{
    source.note_answer(link, header, MessageStatus::Accepted);
    let Some(parcel) = source.consume_message(link, header) else {
        return Err(wrong(rt, "SourceBlock::consume_message"));
    };
    check(
        rt,
        "SourceBlock::consume_message",
        count(parcel.value()) == items,
    );
    Ok(())
}

/// How many items the value has, if it is a row.
fn count(value: &Value) -> usize {
    match value.as_items() {
        Some(items) => items.len(),
        None => 0,
    }
}

fn new_block<K: Kind>(
    rt: &impl Print,
    alloc: Global,
    middle: &Middle,
    kind: BlockKind,
) -> Result<TypedBlock<K>, Stop>
    requires { kind ≡ K.kind }
    ensures { IfOk result (λ block. Rests (target_over block.ports)) }
{
    let plan = plan(rt, alloc, middle, kind, false)?;
    again!(rt, middle.call, TypedBlock::new(alloc, &plan, MIDDLE), only _ => true)
}

/// A block without a function takes messages, and gives what it makes of them.
fn pass<K: Kind>(
    rt: &impl Print,
    alloc: Global,
    middle: &Middle,
    kind: BlockKind,
) -> Result<(), Stop>
    requires { kind ≡ K.kind }
{
    let mut block: TypedBlock<K> = new_block(rt, alloc, middle, kind)?;
    take_all(rt, alloc, &mut block, middle)?;
    give(rt, alloc, &mut block, middle.items)
}

/// Blocks without a function.
pub(crate) fn plain(rt: &impl Print, alloc: Global) -> Result<(), Stop> {
    pass::<kind::Buffer>(rt, alloc, &BUFFER, BlockKind::Buffer)?;
    pass::<kind::Broadcast>(rt, alloc, &BROADCAST, BlockKind::Broadcast)?;
    pass::<kind::WriteOnce>(rt, alloc, &WRITE_ONCE, BlockKind::WriteOnce)?;
    pass::<kind::Batch>(rt, alloc, &BATCH, BlockKind::Batch)?;
    pass::<kind::GreedyJoin>(rt, alloc, &JOIN, BlockKind::Join)
}

fn new_batched(rt: &impl Print, alloc: Global) -> Result<BatchedJoin, Stop>
    ensures { IfOk result (λ join. Rests (target_over join.block.ports)) }
{
    let plan = plan(rt, alloc, &BATCHED_JOIN, BlockKind::BatchedJoin, false)?;
    again!(rt, "BatchedJoin::new", BatchedJoin::new(alloc, &plan, MIDDLE), only _ => true)
}

fn new_reserving(rt: &impl Print, alloc: Global) -> Result<ReservingJoin, Stop> {
    let plan = plan(rt, alloc, &RESERVING_JOIN, BlockKind::Join, true)?;
    again!(rt, "ReservingJoin::new", ReservingJoin::new(alloc, &plan, MIDDLE), only _ => true)
}

/// Joins of kinds that have types of their own. One that reserves is made alone.
pub(crate) fn joins(rt: &impl Print, alloc: Global) -> Result<(), Stop> {
    new_reserving(rt, alloc)?;
    let mut batched = new_batched(rt, alloc)?;
    take_all(rt, alloc, &mut batched, &BATCHED_JOIN)?;
    give(rt, alloc, &mut batched, BATCHED_JOIN.items)
}

fn new_execution<K: WorkKind>(
    rt: &impl Print,
    alloc: Global,
    middle: &Middle,
    kind: BlockKind,
) -> Result<TypedExecution<K, Steps>, Stop>
    requires { kind ≡ K.kind }
    ensures { IfOk result (λ block. Rests (target_over block.block.ports)) }
{
    let plan = plan(rt, alloc, middle, kind, false)?;
    again!(rt, middle.call, TypedExecution::new(alloc, &plan, MIDDLE), only _ => true)
}

/// How many messages wait in the block, and how many results it has to give or keeps.
fn counts<K: WorkKind>(block: &TypedExecution<K, Steps>) -> (usize, usize, usize) {
    let execution = block.execution();
    let waiting = match execution.block().ports().first() {
        Some(port) => port.waiting().len(),
        None => 0,
    };
    (waiting, execution.left().len(), execution.recorded().len())
}

fn begin<K: WorkKind>(
    rt: &impl Print,
    alloc: Global,
    block: &mut TypedExecution<K, Steps>,
) -> Result<Option<Job<Steps>>, Stop> {
    let before = counts(block);
    again!(rt, "begin", block.begin(alloc), only _ => counts(block) == before)
}

fn run(rt: &impl Print, alloc: Global, job: Job<Steps>) -> Result<JobResult<Steps>, Stop> {
    again!(rt, "Job::run", job.run(alloc), only job => job.ticket() == 0)
}

fn end<K: WorkKind>(
    rt: &impl Print,
    block: &mut TypedExecution<K, Steps>,
    done: JobResult<Steps>,
) -> Result<(), Stop> {
    let before = counts(block);
    again!(rt, "end", block.end(done), (done, EndFault::Memory) =>
        done.job().ticket() == 0 && counts(block) == before)
}

/// A block with a function takes messages, and works on the first.
fn work<K: WorkKind>(
    rt: &impl Print,
    alloc: Global,
    middle: &Middle,
    kind: BlockKind,
) -> Result<TypedExecution<K, Steps>, Stop>
    requires { kind ≡ K.kind }
{
    let mut block: TypedExecution<K, Steps> = new_execution(rt, alloc, middle, kind)?;
    take_all(rt, alloc, &mut block, middle)?;
    let Some(job) = begin(rt, alloc, &mut block)? else {
        return Err(wrong(rt, "begin"));
    };
    let done = run(rt, alloc, job)?;
    end(rt, &mut block, done)?;
    Ok(block)
}

/// An action records.
fn act(rt: &impl Print, alloc: Global) -> Result<(), Stop> {
    let action = work::<kind::Action>(rt, alloc, &ACTION, BlockKind::Action)?;
    check(rt, "end", action.record().len() == 1);
    Ok(())
}

/// A transform gives the one result.
fn transform(rt: &impl Print, alloc: Global) -> Result<(), Stop> {
    let mut block = work::<kind::Transform>(rt, alloc, &TRANSFORM, BlockKind::Transform)?;
    give(rt, alloc, &mut block, 0)
}

/// A transform-many gives the first result.
fn transform_many(rt: &impl Print, alloc: Global) -> Result<(), Stop> {
    let mut block = work::<kind::TransformMany>(
        rt,
        alloc,
        &TRANSFORM_MANY,
        BlockKind::TransformMany,
    )?;
    give(rt, alloc, &mut block, 0)
}

/// Blocks with a function.
pub(crate) fn working(rt: &impl Print, alloc: Global) -> Result<(), Stop> {
    act(rt, alloc)?;
    transform(rt, alloc)?;
    transform_many(rt, alloc)
}
