//! What calls answer.
use log_recovery::VolIx;
use table_words::Told;

/// What a call answers: the number that it gives, or 0 if it gives none; the group that a change
/// joins, or that the log is full; the volume of which a call failed; nothing, since it may not be
/// called; or that memory ran out.
#[derive(Clone, Copy)]
pub enum Answer {
    Done(u64),
    Group(u64),
    Full,
    Failed(u32),
    Unfit,
    NoMemory,
}

/// What a write or a sync answers.
pub fn answer_of(res: Result<u64, VolIx>) -> Answer {
    match res {
        Ok(number) => Answer::Done(number),
        Err(vol) => Answer::Failed(vol.number()),
    }
}

/// Whether a call passed.
pub fn is_done(answer: Answer) -> bool {
    match answer {
        Answer::Done(_) => true,
        _ => false,
    }
}

/// The volume of which a call failed, 0 if none did.
pub fn volume_of(answer: Answer) -> u32 {
    match answer {
        Answer::Failed(vol) => vol,
        _ => 0,
    }
}

/// Says what a call answered.
pub fn say_answer(told: &mut Told, answer: Answer) {
    match answer {
        Answer::Done(number) => say_after(told, ": ", number),
        Answer::Group(number) => say_after(told, ": group ", number),
        Answer::Failed(vol) => say_after(told, ": failed ", u64::from(vol)),
        Answer::Full => told.push(": full"),
        Answer::Unfit => told.push(": unfit"),
        Answer::NoMemory => told.push(": no memory"),
    }
}

/// Says a number after a word.
pub fn say_after(told: &mut Told, word: &str, number: u64) {
    told.push(word);
    told.push_number(number);
}
