// Laws of an operator, for whoever publishes for it and writes its replies.
ghost use Rattle.hk_operator.specs.Answering.{PublishesAreRepliedTo, RepliesBegin, RepliesGoOn, UsesWhatIsSeen};

/// What a caller tells of a publish, by what the shelf did for it, is the reply to it.
pub fn publishes_are_replied_to()
    ensures { PublishesAreRepliedTo }
{}

/// The replies to the commands so far go on with the reply to the next one, and the state with what stands after it.
pub fn replies_go_on()
    ensures begin { RepliesBegin }
    ensures go_on { RepliesGoOn }
{}

/// An operator that has taken some bytes used those before their fault.
pub fn uses_what_is_seen()
    ensures { UsesWhatIsSeen }
{}
