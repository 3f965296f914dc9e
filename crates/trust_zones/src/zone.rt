//! Trust zones.
use cidr_bits::Block;
use plain_lists::List;
use wildcard_lang::TextList;

/// A list of blocks of addresses.
pub type BlockList = List<Block>;

/// A trust zone: a request that one of these lists names is inside.
#[derive(Drop)]
pub struct Zone {
    /// Accounts; a request of one of their principals is inside. An account is twelve ASCII digits.
    pub accounts: TextList,
    /// Values of `aws:PrincipalOrgID`, each of at most 2,048 characters.
    pub organizations: TextList,
    /// Values of `aws:SourceVpc`, each of at most 2,048 characters.
    pub vpcs: TextList,
    /// Blocks in which `aws:SourceIp` lies.
    pub blocks: BlockList,
}
