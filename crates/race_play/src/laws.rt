//! What the definitions say together, as functions without effect.

ghost use Rattle.race_play.specs.Laws.{BacksStand, GatheredStands, RacesLookAlike};

/// The order that is printed is an order of all rows, and it is the table's.
pub fn gathered_stands()
    ensures { GatheredStands }
{}

/// A writer's line says of the printed order what it should.
pub fn backs_stand()
    ensures { BacksStand }
{}

/// Races that say equal numbers of rows look alike to each server.
pub fn races_look_alike()
    ensures { RacesLookAlike }
{}
