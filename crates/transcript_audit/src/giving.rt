//! Answers are given: what is kept follows them, and they are put behind those owed before.
ghost use Rattle.std.specs.Prelude.{◌≡◌, ◌++◌, ◌∷◌, [], OnOk};
ghost use Rattle.std.specs.Option.{option_to_list};
ghost use Rattle.answer_text.specs.declared.answer.Answer.TheVariants as answers;
ghost use Rattle.blob_model.specs.Session.{Session};
ghost use Rattle.blob_model.specs.History.{History, said, said_all};
ghost use Rattle.history_notions.specs.FollowsCourse.{FollowsCourse};

use answer_text::{Answer, Answers};
use blob_words::{BlobName, NoMemory};
use history_notions::course::Course;

/// After further answers.
pub fn say_all(course: &mut Course, answers: &[Answer]) -> Result<(), NoMemory>
    ensures { OnOk result ((s : Session) (h : History) → FollowsCourse s h course.old
        → FollowsCourse s (said_all h answers.now) course.new) }
{
    for answer in answers {
        course.say(answer)?;
    }
    Ok(())
}

/// Puts answers behind others.
fn put_all(owed: &mut Answers, more: Answers) -> Result<(), NoMemory>
    ensures { OnOk result (owed.new ≡ owed.old ++ more) }
{
    for answer in more.into_vec() {
        owed.push(answer)?;
    }
    Ok(())
}

/// The answers of one list are given.
pub fn give_all(course: &mut Course, owed: &mut Answers, list: Answers) -> Result<(), NoMemory>
    ensures owed { OnOk result (owed.new ≡ owed.old ++ list) }
    ensures follows { OnOk result ((s : Session) (h : History) → FollowsCourse s h course.old
        → FollowsCourse s (said_all h list) course.new) }
{
    say_all(course, list.as_slice())?;
    put_all(owed, list)?;
    Ok(())
}

/// An answer is given, where there is one.
pub fn give_one(
    course: &mut Course,
    owed: &mut Answers,
    found: Option<Answer>,
) -> Result<(), NoMemory>
    ensures owed { OnOk result (owed.new ≡ owed.old ++ option_to_list found) }
    ensures follows { OnOk result ((s : Session) (h : History) → FollowsCourse s h course.old
        → FollowsCourse s (said_all h (option_to_list found)) course.new) }
{
    if let Some(answer) = found {
        course.say(&answer)?;
        owed.push(answer)?;
    }
    Ok(())
}

/// A blob is granted.
pub fn grant(course: &mut Course, owed: &mut Answers, name: BlobName) -> Result<(), NoMemory>
    ensures owed { OnOk result (owed.new ≡ owed.old ++ answers.Granted name ∷ []) }
    ensures follows { OnOk result ((s : Session) (h : History) → FollowsCourse s h course.old
        → FollowsCourse s (said h (answers.Granted name)) course.new) }
{
    let answer = Answer::Granted(name);
    course.say(&answer)?;
    owed.push(answer)?;
    Ok(())
}
