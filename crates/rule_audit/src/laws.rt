// Laws: functions that do nothing, whose contracts say what holds of every configuration.
ghost use Rattle.rule_audit.specs.Channels.{AreOfOwn};

/// Law: each term of each rule of an accepted configuration has the place among the specs of the
/// channel that the rule names, and each interval rule that of a channel. So no rule is judged on
/// another channel.
pub fn rules_are_of_their_channels()
    ensures { AreOfOwn }
{}
