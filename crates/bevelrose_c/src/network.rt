//! A network that was made ready.
use flow_link::Plan;
use flow_value::Steps;

/// A network that was made ready: its plan, which is out while it runs.
#[derive(Drop)]
pub struct Network {
    pub plan: Option<Plan<Steps>>,
}
