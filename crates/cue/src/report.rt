// What is said of a call: what was answered, and where the head stands.
ghost use Rattle.output.specs.Text.{Puts};
ghost use Rattle.cue.specs.Reports.{answer_text, place_text, report};

use head::HeadFault;
use output::{Guard, Mark, NoRoom, put, put_labelled};

fn put_answer(
    bytes: &mut [u8],
    mark: &mut Mark,
    answer: Result<(), HeadFault>,
) -> Result<(), NoRoom>
    ensures { Puts bytes.old mark.old.used (answer_text answer) bytes.new mark.new.used result }
{
    match answer {
        Ok(()) => put(bytes, mark, b" -> ok"),
        Err(fault) => put_labelled(bytes, mark, b" -> refused ", fault.number() as u64),
    }
}

fn put_place(bytes: &mut [u8], mark: &mut Mark, place: Option<u32>) -> Result<(), NoRoom>
    ensures { Puts bytes.old mark.old.used (place_text place) bytes.new mark.new.used result }
{
    match place {
        Some(place) => put_labelled(bytes, mark, b", at ", place as u64),
        None => put(bytes, mark, b", nowhere"),
    }
}

pub(crate) fn put_report(
    bytes: &mut [u8],
    mark: &mut Mark,
    answer: Result<(), HeadFault>,
    place: Option<u32>,
) -> Result<(), NoRoom>
    ensures { Puts bytes.old mark.old.used (report answer place) bytes.new mark.new.used result }
{
    let guard = Guard::hold(mark);
    put_answer(bytes, guard.mark, answer)?;
    put_place(bytes, guard.mark, place)?;
    guard.accept();
    Ok(())
}
