// The jobs that are out: what is kept of each of them, and what their ends answer.
ghost use Rattle.std.specs.Prelude.{◌≡◌, ℕ, ◌==◌, ◌<◌, ◌++◌, ◌∷◌, [], length, map, vec_capacity, vec_len, IfNone, IfSome};
ghost use Rattle.std.specs.List.{list_any, remove};
ghost use Rattle.driver_model.specs.Answers.{reply_with};
ghost use Rattle.driver_model.specs.Jobs.{reply_of};
ghost use Rattle.driver_model.specs.States.{free_number};
ghost use Rattle.driver_model.specs.declared.replies.Answer.TheVariants.{Done};
ghost use Rattle.driver_objects.specs.Jobs.{HasJob};

use decoder_render::Outcome;
use vd_status::Refusal;

/// A job that is out: its number, by which its end finds it, and the place of the object that it writes.
#[derive(Clone, Copy)]
pub struct OutJob {
    pub number: u64,
    pub target: u64,
}

/// The least number that no job has.
pub fn free_number(jobs: &[OutJob]) -> u64
    ensures { result ≡ free_number (map (λ job. job.number) jobs.now) }
{
    let mut number = 0;
    for _ in 0..jobs.len() {
        if !is_number(jobs, number) {
            return number;
        }
        number += 1;
    }
    number
}

// Whether a job has this number.
fn is_number(jobs: &[OutJob], number: u64) -> bool
    ensures { result ≡ list_any (λ job. job.number == number) jobs.now }
{
    jobs.iter().any(|job| job.number == number)
}

/// Where a job of this number stands.
pub fn job_at(jobs: &[OutJob], number: u64) -> Option<usize>
    ensures some { IfSome result (HasJob jobs.now number) }
    ensures none { IfNone result ((at : ℕ) → ¬ HasJob jobs.now number at) }
{
    jobs.iter().position(|job| job.number == number)
}

/// Whether one of these jobs writes the object with this place.
pub fn writes(jobs: &[OutJob], place: u64) -> bool
    ensures { result ≡ list_any (λ job. job.target == place) jobs.now }
{
    jobs.iter().any(|job| job.target == place)
}

/// Adds a job for which there is room.
pub fn push_reserved(jobs: &mut Vec<OutJob>, job: OutJob)
    requires { vec_len jobs.old < vec_capacity jobs.old }
    ensures { jobs.new.items ≡ jobs.old.items ++ job ∷ [] }
{
    match jobs.push(job) {
        Ok(()) => {}
        Err(_) => unreachable!(),
    }
}

/// Lets go of a job.
pub fn remove_job(jobs: &mut Vec<OutJob>, at: usize)
    requires { at < length jobs.old.items }
    ensures { jobs.new.items ≡ remove jobs.old.items at }
{
    jobs.remove(at);
}

/// What the end of a job with this outcome answers.
pub fn answer_of(outcome: Outcome) -> Result<(), Refusal>
    ensures { reply_with (λ _. Done) result ≡ reply_of outcome }
{
    match outcome {
        Outcome::Ok => Ok(()),
        Outcome::Bitstream { slice } => Err(Refusal::Bitstream { slice }),
        Outcome::Incomplete { macroblocks } => Err(Refusal::Incomplete { macroblocks }),
    }
}
