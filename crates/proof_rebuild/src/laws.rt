//! What holds of a table's rows in shards: each function's contract is a law.

ghost use Rattle.proof_rebuild.specs.Laws.{ShardConversionsJoin, ShardsFindUnfit, ShardsFollow, ShardsJoin};

/// The rows of a shard, of a table that followed changes, are those of the shard that followed its part of them.
pub fn shards_follow()
    ensures { ShardsFollow }
{}

/// The shards of a table, put together, are the table.
pub fn shards_join()
    ensures { ShardsJoin }
{}

/// The converted rows of the shards, put together, are the altered table.
pub fn shard_conversions_join()
    ensures { ShardConversionsJoin }
{}

/// The first row that has no converted row is the first that the shards find.
pub fn shards_find_unfit()
    ensures { ShardsFindUnfit }
{}
