ghost use Rattle.std.specs.Prelude.{◌≡◌, ◌<◌};
ghost use Rattle.query_plan.specs.KeyMessages.{view_from};
ghost use Rattle.server_rounds.specs.Plans.{views_of};

use query_plan::ServerKeys;

/// The keys that each of the three servers read.
#[derive(Drop)]
pub(crate) struct ThreeKeys {
    pub zero: ServerKeys,
    pub one: ServerKeys,
    pub two: ServerKeys,
}

impl ThreeKeys {
    /// The keys of server 0, 1 or 2.
    pub(crate) fn of_server(&self, server: u8) -> &ServerKeys
        requires { server < 3 }
        ensures { view_from result.now ≡ views_of self.now server }
    {
        match server {
            0 => &self.zero,
            1 => &self.one,
            _ => &self.two,
        }
    }
}
