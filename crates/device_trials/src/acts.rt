// What is done with a store, in the lines of a script.

/// A call that commits. In its lines `{data}` stands for 5000 bytes, and `{written}` for 1000.
#[derive(Clone, Copy)]
pub struct Act {
    /// The act in words.
    pub name: &'static str,
    /// The calls before it, in a run of their own.
    pub before: &'static str,
    /// The calls of the run in which something goes wrong, but for the one that commits.
    pub opens: &'static str,
    /// The call that commits.
    pub commits: &'static str,
    /// The objects of before, as a list shows them.
    pub old: &'static str,
    /// The objects that the act leaves.
    pub new: &'static str,
}

/// All acts, in the order of the table. Beside the object of the act there is another, of which nothing changes.
pub const ACTS: [Act; 9] = [
    Act {
        name: "create",
        before: "a create 6f r - 03\na close 0\n",
        opens: "a open 6f r\n",
        commits: "create 6b rw 05 01",
        old: "# 00000000-0000-0000-0000-000000000001 6f 1 - 03\n",
        new: "# 00000000-0000-0000-0000-000000000001 6b 1 05 01\n# 00000000-0000-0000-0000-000000000001 6f 1 - 03\n",
    },
    Act {
        name: "create, overwriting",
        before: "a create 6b rw 05 01\na close 0\na create 6f r - 03\na close 1\n",
        opens: "a open 6f r\n",
        commits: "create 6b ro - 0203",
        old: "# 00000000-0000-0000-0000-000000000001 6b 1 05 01\n# 00000000-0000-0000-0000-000000000001 6f 1 - 03\n",
        new: "# 00000000-0000-0000-0000-000000000001 6b 2 - 0203\n# 00000000-0000-0000-0000-000000000001 6f 1 - 03\n",
    },
    Act {
        name: "write",
        before: "a create 6b rw 05 01\na close 0\na create 6f r - 03\na close 1\n",
        opens: "a open 6f r\na open 6b w\n",
        commits: "write 1 ff",
        old: "# 00000000-0000-0000-0000-000000000001 6b 1 05 01\n# 00000000-0000-0000-0000-000000000001 6f 1 - 03\n",
        new: "# 00000000-0000-0000-0000-000000000001 6b 1 05 ff\n# 00000000-0000-0000-0000-000000000001 6f 1 - 03\n",
    },
    Act {
        name: "truncate",
        before: "a create 6b rw 05 01\na close 0\na create 6f r - 03\na close 1\n",
        opens: "a open 6f r\na open 6b w\n",
        commits: "truncate 1 3",
        old: "# 00000000-0000-0000-0000-000000000001 6b 1 05 01\n# 00000000-0000-0000-0000-000000000001 6f 1 - 03\n",
        new: "# 00000000-0000-0000-0000-000000000001 6b 3 05 010000\n# 00000000-0000-0000-0000-000000000001 6f 1 - 03\n",
    },
    Act {
        name: "rename",
        before: "a create 6b rw 05 01\na close 0\na create 6f r - 03\na close 1\n",
        opens: "a open 6f r\na open 6b m\n",
        commits: "rename 1 7a",
        old: "# 00000000-0000-0000-0000-000000000001 6b 1 05 01\n# 00000000-0000-0000-0000-000000000001 6f 1 - 03\n",
        new: "# 00000000-0000-0000-0000-000000000001 6f 1 - 03\n# 00000000-0000-0000-0000-000000000001 7a 1 05 01\n",
    },
    Act {
        name: "delete",
        before: "a create 6b rw 05 01\na close 0\na create 6f r - 03\na close 1\n",
        opens: "a open 6f r\na open 6b m\n",
        commits: "delete 1",
        old: "# 00000000-0000-0000-0000-000000000001 6b 1 05 01\n# 00000000-0000-0000-0000-000000000001 6f 1 - 03\n",
        new: "# 00000000-0000-0000-0000-000000000001 6f 1 - 03\n",
    },
    Act {
        name: "create, two blocks",
        before: "a create 6f r - 03\na close 0\n",
        opens: "a open 6f r\n",
        commits: "create 6b rw a0a1 {data}",
        old: "# 00000000-0000-0000-0000-000000000001 6f 1 - 03\n",
        new: "# 00000000-0000-0000-0000-000000000001 6b 5000 a0a1 sha256:311504bb9f43fcebadaad1ed71ab2083139376e69225ff0d1e4cb8951a6d614f\n# 00000000-0000-0000-0000-000000000001 6f 1 - 03\n",
    },
    Act {
        name: "write, two blocks",
        before: "a create 6b rw a0a1 {data}\na close 0\na create 6f r - 03\na close 1\n",
        opens: "a open 6f r\na open 6b w\na seek 1 4090 set\n",
        commits: "write 1 {written}",
        old: "# 00000000-0000-0000-0000-000000000001 6b 5000 a0a1 sha256:311504bb9f43fcebadaad1ed71ab2083139376e69225ff0d1e4cb8951a6d614f\n# 00000000-0000-0000-0000-000000000001 6f 1 - 03\n",
        new: "# 00000000-0000-0000-0000-000000000001 6b 5090 a0a1 sha256:f9cbf497ef65c63b358bb4e12eab419ecd781e2b962e749cbe2494c7379d1b25\n# 00000000-0000-0000-0000-000000000001 6f 1 - 03\n",
    },
    Act {
        name: "truncate, two blocks",
        before: "a create 6b rw a0a1 {data}\na close 0\na create 6f r - 03\na close 1\n",
        opens: "a open 6f r\na open 6b w\n",
        commits: "truncate 1 100",
        old: "# 00000000-0000-0000-0000-000000000001 6b 5000 a0a1 sha256:311504bb9f43fcebadaad1ed71ab2083139376e69225ff0d1e4cb8951a6d614f\n# 00000000-0000-0000-0000-000000000001 6f 1 - 03\n",
        new: "# 00000000-0000-0000-0000-000000000001 6b 100 a0a1 sha256:11b9a1cdad4dee621f1ba954641ed3959e6ce9490353cbd5ca3aff226d237871\n# 00000000-0000-0000-0000-000000000001 6f 1 - 03\n",
    },
];
