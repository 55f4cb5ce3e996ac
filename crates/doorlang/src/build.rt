// `doorlang build`: the image of a text.
use crate::output::{Status, Told, about, tell, written};
use crate::{files, rooms, texts};
use console::arguments::Given;
use console::lent::filled;
use toolchain::Refusal;
use toolchain::work::{CORE_ROOM, STARTS_ROOM, TOKENS_ROOM, TREE_ROOM};

// The image written; then the lines.
fn built(rt: &HostRuntime, given: Given, image: &[u8]) -> Result<Status, Told> {
    files::write_file(rt, files::wanted(given.second)?, image)?;
    let words = image.len() / 4;
    let _ = println!(rt; "answer: 0");
    written(rt, println!(rt; "words: {words}"))?;
    about(rt, given.first);
    tell(rt, "the image is written\n");
    Ok(Status::Done)
}

// What `compile` answers, with the image in its buffer; working room is free again afterwards.
pub fn image_of(text: &[u8], image: &mut [u8]) -> Result<usize, Refusal> {
    let mut tokens = filled::<u32, TOKENS_ROOM>(0);
    let mut tree = filled::<u32, TREE_ROOM>(0);
    let mut starts = filled::<u32, STARTS_ROOM>(0);
    let mut core = filled::<u32, CORE_ROOM>(0);
    toolchain::compile::compile(text, image, &mut tokens, &mut tree, &mut starts, &mut core)
}

fn compile(rt: &HostRuntime, given: Given, text: &[u8]) -> Result<Status, Told> {
    let mut image = filled::<u8, { rooms::IMAGE }>(0);
    match image_of(text, &mut image) {
        Err(refusal) => texts::refused(rt, given, text, refusal, 0),
        Ok(size) => {
            let n = size.min(image.len());
            built(rt, given, &image[..n])
        }
    }
}

// Refused where the image would be written over its text, by their names.
fn not_over_itself(rt: &HostRuntime, given: Given) -> Result<(), Told> {
    let (Some(text), Some(image)) = (given.first, given.second) else {
        return Ok(());
    };
    if files::is_same(rt, text, image) {
        about(rt, given.second);
        tell(rt, "the image would replace its text\n");
        return Err(Told);
    }
    Ok(())
}

pub fn build(rt: &HostRuntime, given: Given) -> Result<Status, Told> {
    not_over_itself(rt, given)?;
    let mut text = filled::<u8, { rooms::TEXT }>(0);
    let n = files::read_file(rt, files::wanted(given.first)?, &mut text)?;
    compile(rt, given, &text[..n])
}
