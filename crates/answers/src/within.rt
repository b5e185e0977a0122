// What is read is within its limits.
ghost use Rattle.answers.specs.Within.{WithinLimits};

// The body of an answer that is read is within its limit, and its token is one.
pub fn within_limits()
    ensures { WithinLimits }
{}
