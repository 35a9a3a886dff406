// The laws of breaks and lines, as promises.
ghost use Rattle.lines.specs.Laws.{LineRule, EveryText, EveryList};
ghost use Rattle.lines.specs.LineRule.{width};

// What ends a line is a line rule; the breaks of every text rise in it and survive a cut outside them, by every line
// rule; and lines never fall, step by one and begin at their start, over every list of breaks that rises.
pub fn line_laws_hold()
    ensures rule { LineRule width }
    ensures texts { EveryText }
    ensures lists { EveryList }
{}
