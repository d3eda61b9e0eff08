//! A watch: what is read is what was published, also by threads beside the writer.
ghost use Rattle.std.specs.Prelude.{◌≡◌, [], ◌∷◌};

use crate::watch_beside::watch;
use std::alloc::Global;
use std::process::Abort;
use std::test::Fail;
use std::thread::{Threads, join};
use td_watch::{Reader, Watch, WatchError, Writer};

#[test]
fn a_read_is_as_new_as_the_last_publish(rt: HostRuntime) -> Result<(), Fail> {
    let (mut writer, mut first, mut second) = watch(rt.alloc())?;
    let before = first.read();
    writer.publish([1, 0, 0]);
    let (one, beside) = (first.read(), second.read());
    writer.publish([1, 1, 0]);
    let two = first.read();
    writer.publish([1, 1, 1]);
    let three = first.read();
    assert_eq!(rt;
        [before, one, beside, two, three],
        [[0, 0, 0], [1, 0, 0], [1, 0, 0], [1, 1, 0], [1, 1, 1]]
    );
    let met = [writer.meet(second), writer.meet(first)];
    assert_eq!(rt; met, [[1, 0, 0], [1, 1, 1]]);
    Ok(())
}

// Publishes a thousand times, each time every word one higher.
fn publish_often(mut writer: Writer) -> Writer
    requires { writer.words ≡ 2 ∷ 1 ∷ 0 ∷ [] }
    ensures watch { result.watch ≡ writer.watch }
    ensures words { result.words ≡ 1002 ∷ 1001 ∷ 1000 ∷ [] }
{
    for i in 0..1000u64 {
        writer.publish([i + 3, i + 2, i + 1]);
    }
    writer
}

// Reads a thousand times, and says whether no word fell.
fn read_often(mut reader: Reader) -> (bool, Reader)
    ensures { result.1.watch ≡ reader.watch }
{
    let mut last = reader.read();
    let mut rises = true;
    for _ in 1..1000u32 {
        let now = reader.read();
        rises = rises && last[0] <= now[0] && last[1] <= now[1] && last[2] <= now[2];
        last = now;
    }
    (rises, reader)
}

fn read_beside_the_writer<R: Threads + Abort + Sync>(rt: &R, alloc: Global) -> Result<(), Fail> {
    let (mut writer, first, second) = watch(alloc)?;
    writer.publish([2, 1, 0]);
    let (mut writer, ((first_rises, first), (second_rises, second))) = join(
        rt,
        move || -> Writer
            requires { writer.words ≡ 2 ∷ 1 ∷ 0 ∷ [] }
            ensures { result.watch ≡ writer.watch }
        { publish_often(writer) },
        move || -> ((bool, Reader), (bool, Reader))
            ensures { (result.0.1.watch ≡ first.watch) × (result.1.1.watch ≡ second.watch) }
        { join(rt, move || read_often(first), move || read_often(second)) },
    );
    assert!(rt; first_rises && second_rises);
    for met in [writer.meet(first), writer.meet(second)] {
        assert!(rt;
            met[0] <= 1002 && met[1] <= 1001 && met[2] <= 1000,
            "{met:?}"
        );
    }
    Ok(())
}

#[test]
fn two_threads_read_beside_the_writer(rt: HostRuntime) -> Result<(), Fail> {
    read_beside_the_writer(&rt, rt.alloc())
}

#[test]
fn a_watch_may_have_no_reader(rt: HostRuntime) -> Result<(), Fail> {
    let Watch {
        mut writer,
        readers,
    } = Watch::new(rt.alloc(), [3, 2, 1], 0)?;
    assert!(rt; readers.is_empty());
    writer.publish([3, 3, 3]);
    Ok(())
}

// Run with each allocation failing in turn: the refusal is then the one for memory.
#[test]
fn a_refused_allocation_is_memory(rt: HostRuntime) {
    match Watch::new(rt.alloc(), [7, 5, 5], 255) {
        Ok(watch) => assert_eq!(rt; watch.readers.len(), 255),
        Err(error) => assert_eq!(rt; (error, error.number()), (WatchError::Memory, 1)),
    }
}
