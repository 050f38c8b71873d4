//! Vectors of replies to `XINFO`.
ghost use Rattle.std.specs.Prelude.{◌≡◌, [], ◌∷◌, codes, map};

use test_notation::vectors::ReplyVector;

/// A stream, v58.
pub fn stream_vectors() -> [ReplyVector<'static>; 1]
    ensures { map (λ v. v.0.now) result
        ≡ codes "v58" ∷ [] }
{
    [(
        "v58",
        "Array[length, Nil, length, Int 3, first-entry, Array[1-0, Array[f, v], Int 9], last-entry, Map[1-0: Nil]]",
        "last= keys=0 nodes=0 groups=0 length=3 first=1-0(f=v) final=()",
    )]
}

/// A stream with idempotent producers, v59.
pub fn idempotency_vectors() -> [ReplyVector<'static>; 1]
    ensures { map (λ v. v.0.now) result
        ≡ codes "v59" ∷ [] }
{
    [(
        "v59",
        "Map[length: Int 2, idmp-duration: Int 100, idmp-maxsize: 100, pids-tracked: +3]",
        "last= keys=0 nodes=0 groups=0 length=2 first=() final=() duration=100 maxsize=100 pids=3 tracked=0 added=0 duplicates=0",
    )]
}

/// Consumers, v60.
pub fn consumer_vectors() -> [ReplyVector<'static>; 1]
    ensures { map (λ v. v.0.now) result
        ≡ codes "v60" ∷ [] }
{
    [(
        "v60",
        "Array[Map[name: c, pending: Int 4], Array[idle, 9, name, d]]",
        "c pending=4 idle=0; d pending=0 idle=9",
    )]
}

/// Groups, v61 and v62.
pub fn group_vectors() -> [ReplyVector<'static>; 2]
    ensures { map (λ v. v.0.now) result
        ≡ codes "v61" ∷ codes "v62" ∷ [] }
{
    [
        (
            "v61",
            "Array[Map[name: g, consumers: Int 1, last-delivered-id: 1-0, lag: Nil]]",
            "g consumers=1 pending=0 last=1-0 read=none lag=none",
        ),
        ("v62", "Array[Map[name: g, lag: Attr(Nil)]]", "refused 2"),
    ]
}

/// Streams whose fields cannot be read, v85 and v86.
pub fn odd_stream_vectors() -> [ReplyVector<'static>; 2]
    ensures { map (λ v. v.0.now) result
        ≡ codes "v85" ∷ codes "v86" ∷ [] }
{
    [
        ("v85", "Array[length]", "refused 4"),
        ("v86", "Map[first-entry: Array[1-0, x]]", "refused 4"),
    ]
}

/// Streams with the two counts of their radix tree, v87 to v89.
pub fn radix_tree_vectors() -> [ReplyVector<'static>; 3]
    ensures { map (λ v. v.0.now) result
        ≡ codes "v87" ∷ codes "v88" ∷ codes "v89" ∷ [] }
{
    [
        (
            "v87",
            "Map[radix-tree-keys: Int 1, radix-tree-nodes: Int 2]",
            "last= keys=1 nodes=2 groups=0 length=0 first=() final=()",
        ),
        (
            "v88",
            "Map[radix-tree-nodes: Int 2]",
            "last= keys=0 nodes=2 groups=0 length=0 first=() final=()",
        ),
        ("v89", "Map[radix-tree-keys: x]", "refused 2"),
    ]
}
