//! What is wrong with a line of the input.

ghost use Rattle.std.specs.Prelude.{◌≡◌};
ghost use Rattle.json_replies.specs.Replies.{line_of};
ghost use Rattle.job_replies.specs.Refusals.{line_error};

/// What is wrong with a line of the input.
#[derive(Clone, Copy)]
pub enum LineFault {
    /// It has more than 1,048,576 bytes.
    Long,
    /// It is no JSON.
    Syntax,
    /// Some number in it is no whole one of 64 bits with a sign.
    Number,
    /// It is no object, or breaks a rule of its context.
    Field,
    /// As many lines as may be were accepted before it.
    Limit,
}

impl LineFault {
    /// The line that answers it, with its newline.
    pub fn reply(self) -> &'static str
        ensures { result.now ≡ line_of (line_error self) }
    {
        match self {
            LineFault::Long => "{\"error\":{\"kind\":\"line-long\"}}\n",
            LineFault::Syntax => "{\"error\":{\"kind\":\"line-syntax\"}}\n",
            LineFault::Number => "{\"error\":{\"kind\":\"line-number\"}}\n",
            LineFault::Field => "{\"error\":{\"kind\":\"line-field\"}}\n",
            LineFault::Limit => "{\"error\":{\"kind\":\"line-limit\"}}\n",
        }
    }
}
