//! A watch beside a keeper.
use crate::error::StepError;
use std::alloc::Global;
use td_calls::Law;
use td_disk::Disk;
use td_keeper::Keeper;
use td_watch::{Reader, Watch};

/// Attaches the writer of a fresh watch, prints whether another was attached, and answers its reader.
pub(crate) fn attach<D: Disk, L: Law>(
    rt: &impl Print,
    alloc: Global,
    keeper: &mut Keeper<D, L>,
) -> Result<Option<Reader>, StepError> {
    let Watch {
        writer,
        mut readers,
    } = Watch::new(alloc, [0, 0, 0], 1)?;
    match keeper.attach(writer) {
        Some(_writer) => println!(rt; "attached in the place of another")?,
        None => println!(rt; "attached")?,
    }
    Ok(readers.pop())
}

/// Prints the words that a reader reads now, if there is one.
pub(crate) fn read(rt: &impl Print, reader: &mut Option<Reader>) -> Result<(), StepError> {
    let Some(reader) = reader else {
        return Ok(println!(rt; "none")?);
    };
    let [acked, done, kept] = reader.read();
    Ok(println!(rt; "acked {acked}, done {done}, kept {kept}")?)
}

/// Detaches the writer of a watch, and prints whether there was one.
pub(crate) fn detach<D: Disk, L: Law>(
    rt: &impl Print,
    keeper: &mut Keeper<D, L>,
) -> Result<(), StepError> {
    let answer = if keeper.detach().is_some() {
        "detached"
    } else {
        "none"
    };
    Ok(println!(rt; "{answer}")?)
}
