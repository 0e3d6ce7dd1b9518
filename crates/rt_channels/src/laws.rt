//! What is promised of carried channels. A function here has no code: its contract is the law.

ghost use Rattle.rt_channels.specs.Laws.{
  CarriedChannelsAreDrawn,
  CarriedChannelsKeepCross,
  CarriedChannelsKeepReach,
  CarriedChannelsKeepOrder,
  ScalingKeepsChannels,
};
ghost use Rattle.rt_channels.specs.Sample.{OneCrossingIsCarried};

/// The drawn channels are the channels of the drawing. From this project.
pub fn carried_channels_are_drawn()
    ensures { CarriedChannelsAreDrawn }
{}

/// The drawing of carried channels keeps the rule cross. From this project.
pub fn carried_channels_keep_cross()
    ensures { CarriedChannelsKeepCross }
{}

/// The drawing of carried channels keeps the reach of both masks beyond them. From this project.
pub fn carried_channels_keep_reach()
    ensures { CarriedChannelsKeepReach }
{}

/// Channels of one strip follow each other in the drawing as they do in the source. From this project.
pub fn carried_channels_keep_order()
    ensures { CarriedChannelsKeepOrder }
{}

/// Channels that are carried in steps are carried in database units. From this project.
pub fn scaling_keeps_channels()
    ensures { ScalingKeepsChannels }
{}

/// One strip that crosses another is carried as it is, so the laws aren't said of nothing. From this project.
pub fn one_crossing_is_carried()
    ensures { OneCrossingIsCarried }
{}
