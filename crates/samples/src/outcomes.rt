//! What an answer refuses with, for comparison.

#[cfg(test)]
pub mod tests {
    use networks::{Layer, Link, Network, Refusal, Report};
    use std::test::Fail;
    use weights::WeightKind;

    pub fn outcome<T: Drop>(r: Result<T, Refusal>) -> Option<Report> {
        r.err().map(|refusal| refusal.to_report())
    }

    pub fn refused(layer: Layer, number: u8, place: usize) -> Option<Report> {
        Some(Report {
            layer,
            number,
            place,
        })
    }

    pub fn in_network(number: u8, place: usize) -> Option<Report> {
        refused(Layer::Network, number, place)
    }

    pub fn opened<K: WeightKind>(sites: u8, links: &[Link<K>]) -> Result<Network<K>, Fail> {
        Network::open(sites, links).map_err(|_| Fail::new("the network is refused"))
    }
}
