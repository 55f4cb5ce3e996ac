// `doorlang check`: the answer to a text.
use crate::output::{Status, Told, about, tell, written};
use crate::{files, rooms, texts};
use console::arguments::Given;
use console::lent::filled;

fn answer(rt: &HostRuntime, given: Given, text: &[u8]) -> Result<Status, Told> {
    if let Err(refusal) = texts::elements(text) {
        return texts::refused(rt, given, text, refusal, 0);
    }
    written(rt, println!(rt; "answer: 0"))?;
    about(rt, given.first);
    tell(rt, "accepted\n");
    Ok(Status::Done)
}

pub fn check(rt: &HostRuntime, given: Given) -> Result<Status, Told> {
    let mut text = filled::<u8, { rooms::TEXT }>(0);
    let n = files::read_file(rt, files::wanted(given.first)?, &mut text)?;
    answer(rt, given, &text[..n])
}
