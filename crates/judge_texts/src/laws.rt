//! Laws of the judgement of an audit text. Each is a function without effect whose clause is the law.

ghost use Rattle.judge_texts.specs.Laws.{IsJudgedToItsFirstWrongRow};

/// What follows the first wrong row of a text changes nothing of its judgement: a text of whole rows that is not legal has
/// the same findings, summary, verdict and exit status, whatever follows it.
pub fn a_wrong_row_decides()
    ensures { IsJudgedToItsFirstWrongRow }
{}
