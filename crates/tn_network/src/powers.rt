ghost use Rattle.std.specs.Prelude.{◌≡◌, map, IfOk};
ghost use Rattle.tn_network.specs.Resets.{power_of, powered_node, AreSized};

use crate::boards::NoMemory;
use std::alloc::Global;
use tn_cpu::Cpu;
use tn_mem::Memory;
use tn_net::Network;
use tn_node::Node;

/// What a processor holds at power-up: the bytes of its memory, Error and HaltOnError.
#[derive(Drop)]
pub struct Power {
    pub bytes: Vec<u8>,
    pub error: bool,
    pub halt: bool,
}

/// The nodes after power-up, each with a memory of the size that the network says.
pub fn powered_nodes(
    alloc: Global,
    network: &Network,
    powers: Vec<Power>,
) -> Result<Vec<Node<Memory>>, NoMemory>
    requires { AreSized (map power_of powers.items) network.now }
    ensures { IfOk result (λ nodes. nodes.items ≡ map powered_node (map power_of powers.items)) }
{
    let _count = network.count();
    let mut nodes = Vec::new(alloc);
    for power in powers {
        let memory = Memory::power_up(power.bytes);
        let cpu = Cpu::power_up(memory, power.error, power.halt);
        if nodes.push(Node::power_up(cpu)).is_err() {
            return Err(NoMemory);
        }
    }
    Ok(nodes)
}
