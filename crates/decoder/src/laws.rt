//! The laws of scores and rankings, for every sound row of the degree table.
ghost use Rattle.kerdock.specs.Code.{Row};
ghost use Rattle.kerdock.specs.Sound.{Sound};
ghost use Rattle.decoder.specs.Cosets.{Cosets};
ghost use Rattle.decoder.specs.Turnbacks.{CosetScores, VisitsAll};
ghost use Rattle.decoder.specs.Laws.{ScoresAdd, OneRanking, NearScores, TurnedScores, Nearest};

/// The score over a sum of receptions is the sum of the scores, and small samples move no score by much.
pub fn scores_add()
    ensures { (row : Row) → Sound row → ScoresAdd row }
{}

/// A ranking by words is a ranking by messages, and there is only one.
pub fn rankings_are_one()
    ensures { (row : Row) → Sound row → OneRanking row }
{}

/// Where scores differ little, so do the margins, and a large lead keeps its message.
pub fn near_scores_keep_the_ranking()
    ensures { (row : Row) → Sound row → NearScores row }
{}

/// Turning receptions along a word moves each score to the sum of the messages.
pub fn turning_moves_scores()
    ensures { (row : Row) → Sound row → TurnedScores row }
{}

/// For complex samples a higher score is a smaller squared distance.
pub fn higher_scores_are_nearer()
    ensures { (row : Row) → Sound row → Nearest row }
{}

/// Every message is one of a coset, whose words are its leader's with parities added.
pub fn cosets_stand()
    ensures { (row : Row) → Sound row → Cosets row }
{}

/// Turned back along a coset's leader and transformed, the samples read the scores of its messages.
pub fn coset_readings_are_scores()
    ensures { (row : Row) → Sound row → CosetScores row }
{}

/// The search visits every message once, and then its ranking is that of all.
pub fn every_message_is_visited()
    ensures { (row : Row) → Sound row → VisitsAll row }
{}
