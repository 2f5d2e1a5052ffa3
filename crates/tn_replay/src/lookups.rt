use tn_net::Network;
use tn_stream::Image;
use tn_sym::Program;
use tn_text::Name;

/// What the lines of a schedule look things up in: the network, and the names, the programs and the
/// images of its processors.
#[derive(Drop)]
pub(crate) struct Lookup<'a> {
    pub(crate) network: &'a Network,
    pub(crate) names: &'a [Name],
    pub(crate) programs: &'a [Program],
    pub(crate) images: &'a [Image],
}
