//! A list of dealings, played on a bay of its own.
ghost use Rattle.std.specs.Prelude.{◌≡◌, ℕ, ◌≤◌, min, true, length, OnOk, OnErr};
ghost use Rattle.bay.specs.Rules.{Opening, shut};
ghost use Rattle.bay.specs.Rules.Run.{Opened};
ghost use Rattle.bay.specs.Rules.Dealing.{Decide as Deciding};
ghost use Rattle.bay_rules.specs.Lived.{Lived, Deals};
ghost use Rattle.bay_rules.specs.Steps.{Steps};
ghost use Rattle.bay.specs.Replay.{made, Carries};
ghost use Rattle.bay_calls.specs.Seen.{opening, state, delivered};
ghost use Rattle.bay_calls.specs.Played.{part as part_of, meant, told, handed, written, Beyond, Wiped, WorkAfter, WorkLeft, SumsLeft};

use crate::bays::Bay;
use crate::verdict::{Refused, Verdict, issue, spend};
use bay_rules::{Denial, Numbers};
use samples::Sample;

/// One dealing of a list. A reception is a range of a pool of samples; the work memory of a decision is the first so many
/// samples of the memory that is lent for it, or all where there are fewer; a verdict stands by its five numbers.
#[derive(Clone, Copy, PartialEq, Eq, Debug)]
pub enum Dealing {
    Take { from: usize, to: usize },
    Decide { work: usize },
    Accept(Numbers),
    Repeat(Numbers),
    Drop(Numbers),
    Clear,
}

/// What a bay answers to a dealing of a list that it does not deny.
#[derive(Clone, Copy, PartialEq, Eq, Debug)]
pub enum Reply {
    Counted(u8),
    Delivered(Numbers),
    Message(u32),
}

/// What a bay answers to a dealing of a list.
pub type Answer = Result<Reply, Denial>;

/// The samples of a range of the pool, none where it is no range of it.
fn part<S: Sample>(pool: &[S], from: usize, to: usize) -> &[S]
    ensures { result.now ≡ part_of pool.now from to }
{
    pool.get(from..to).unwrap_or_default()
}

/// A decision with the first samples of the work memory.
fn decide_part<S: Sample>(bay: &mut Bay<S>, work: &mut [S], n: usize) -> Result<Verdict, Denial>
    requires { n ≤ length work.old }
    ensures steps { Steps (state S.Sample bay.old) (Deciding n) (delivered result) (state S.Sample bay.new) }
    ensures deals { Deals (state S.Sample bay.old) (Deciding n) (delivered result) (state S.Sample bay.new) }
    ensures unmoved { OnErr result (bay.new ≡ bay.old) }
    ensures kept { bay.new.sums.now ≡ bay.old.sums.now }
    ensures wiped { OnOk result (Wiped S.Sample (length bay.old.sums.now) work.old work.new) }
    ensures untouched { OnErr result (work.new ≡ work.old) }
    ensures lent { bay.new.sums.ghost_name ≡ bay.old.sums.ghost_name }
{
    bay.decide(&mut work[..n])
}

/// The reason of a refusal; the verdict that came back ends here, and its numbers are still in the list.
// stays: a From would let any crate drop the verdict of a refusal by a ?, so the reason is handed to map_err
fn reason(refused: Refused) -> Denial
    ensures { result ≡ refused.why }
{
    let Refused { why, verdict } = refused;
    let _ = spend(verdict);
    why
}

/// One dealing: a verdict is made of its numbers for it, and ends with it.
// stays: bay, work memory and pool are three loans, which a struct would join for two functions only and take apart in each
fn play_one<S: Sample>(bay: &mut Bay<S>, work: &mut [S], pool: &[S], dealing: Dealing) -> Answer
    ensures deals { Deals (state S.Sample bay.old) (meant S.Sample pool.now (length work.old) dealing) (told result) (state S.Sample bay.new) }
    ensures unmoved { OnErr result (bay.new ≡ bay.old) }
    ensures works { WorkAfter S.Sample (length bay.old.sums.now) result work.old work.new }
    ensures long { length bay.new.sums.now ≡ length bay.old.sums.now }
    ensures lent { bay.new.sums.ghost_name ≡ bay.old.sums.ghost_name }
{
    Ok(match dealing {
        Dealing::Take { from, to } => Reply::Counted(bay.take(part(pool, from, to))?),
        Dealing::Decide { work: n } => {
            Reply::Delivered(spend(decide_part(bay, work, n.min(work.len()))?))
        }
        Dealing::Accept(numbers) => Reply::Message(bay.accept(issue(numbers)).map_err(reason)?),
        Dealing::Repeat(numbers) => Reply::Counted(bay.repeat(issue(numbers)).map_err(reason)?),
        Dealing::Drop(numbers) => Reply::Counted(bay.drop(issue(numbers)).map_err(reason)?),
        Dealing::Clear => Reply::Counted(bay.clear()?),
    })
}

/// The dealings in their order, as far as there is room for answers.
fn play_all<S: Sample>(
    bay: &mut Bay<S>,
    work: &mut [S],
    pool: &[S],
    dealings: &[Dealing],
    answers: &mut [Answer],
) -> usize
    ensures count { result ≡ min (length dealings.now) (length answers.old) }
    ensures runs { (o : Opening) → Lived o Opened (state S.Sample bay.old) → Lived o (made (handed S.Sample pool.now (length work.old) dealings.now) (written answers.new) result) (state S.Sample bay.new) × (shut o ≡ true → bay.new ≡ bay.old) }
    ensures worked { WorkLeft S.Sample (length bay.old.sums.now) result answers.new work.old work.new }
    ensures beyond { Beyond result answers.old answers.new }
    ensures lent { bay.new.sums.ghost_name ≡ bay.old.sums.ghost_name }
{
    let n = dealings.len().min(answers.len());
    // stays: the answers go by index, since of a zip over iter_mut a proof knows no answer that it leaves
    for (i, dealing) in dealings[..n].iter().enumerate() {
        answers[i] = play_one(bay, work, pool, *dealing);
    }
    n
}

/// Opens a bay on a degree and memory for its sums, plays the dealings on it in their order, and writes each answer. A
/// dealing without room for its answer is not made. Answers how many were made. A verdict that is out at the end of the
/// list ends with the bay; its numbers stand among the answers.
pub fn play<S: Sample>(
    degree: u8,
    sums: &mut [S],
    work: &mut [S],
    pool: &[S],
    dealings: &[Dealing],
    answers: &mut [Answer],
) -> usize
    ensures count { result ≡ min (length dealings.now) (length answers.old) }
    ensures law { Carries (opening degree (length sums.old)) (handed S.Sample pool.now (length work.old) dealings.now) (written answers.new) result }
    ensures left { SumsLeft S.Sample (opening degree (length sums.old)) (made (handed S.Sample pool.now (length work.old) dealings.now) (written answers.new) result) sums.old sums.new }
    ensures worked { WorkLeft S.Sample (length sums.old) result answers.new work.old work.new }
    ensures beyond { Beyond result answers.old answers.new }
{
    let mut bay = Bay::open(degree, sums);
    play_all(&mut bay, work, pool, dealings, answers)
}
