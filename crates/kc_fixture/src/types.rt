// The types of the made kernel.
use crate::btf::Types;
use std::alloc::{AllocError, Global};

/// The file of types: 32 records behind a header of 24 bytes, and then the names.
pub fn btf_file(alloc: Global) -> Result<Vec<u8>, AllocError> {
    file_of(alloc, &[TYPES, TASK, ITEM])
}

/// The file of types of the same kernel with process ids: a task has two further members, and seven types come after
/// the 32.
pub fn btf_with_pids(alloc: Global) -> Result<Vec<u8>, AllocError> {
    file_of(alloc, &[TYPES, TASK_WITH_PIDS, ITEM, PIDS])
}

fn file_of(alloc: Global, parts: &[&str]) -> Result<Vec<u8>, AllocError> {
    let mut types = Types::new(alloc)?;
    for part in parts {
        types.add(part)?;
    }
    types.file(alloc)
}

const TYPES: &str = "1 unsigned long = int 8 64
2 unsigned char = int 1 8
3 unsigned int = int 4 32
4 int = int 4 0x1000020
5 = ptr 0
6 list_head = struct 16
  next = 7 0
  prev = 7 64
7 = ptr 6
8 hlist_node = struct 16
  next = 9 0
  pprev = 5 64
9 = ptr 8
10 hlist_head = struct 8
  first = 9 0
11 rb_node = struct 24
  __rb_parent_color = 1 0
  rb_right = 12 64
  rb_left = 12 128
12 = ptr 11
13 rb_root = struct 8
  rb_node = 12 0
14 rb_root_cached = struct 16
  rb_root = 13 0
  rb_leftmost = 12 64
15 = array 0 5 3 16
16 xa_node = struct 152
  shift = 2 0
  offset = 2 8
  count = 2 16
  nr_values = 2 24
  parent = 17 64
  array = 5 128
  slots = 15 192
17 = ptr 16
18 xarray = struct 16
  xa_lock = 3 0
  xa_flags = 3 32
  xa_head = 5 64
19 kmem_cache_node = struct 32
  list_lock = 3 0
  nr_partial = 1 64
  partial = 6 128
20 = ptr 19
21 = array 0 20 3 1
22 kmem_cache = struct 48
  size = 3 0
  object_size = 3 32
  offset = 3 64
  red_left_pad = 3 96
  random = 1 128
  list = 6 192
  node = 21 320
23 = ptr 22
24 = struct 4
  inuse = 3 0 16
  objects = 3 16 15
  frozen = 3 31 1
25 = union 8
  counters = 1 0
  = 24 0
26 slab = struct 64
  __page_flags = 1 0
  slab_cache = 23 64
  slab_list = 6 128
  freelist = 5 256
  = 25 320
27 page = struct 64
  flags = 1 0
28 signal_struct = struct 16
  thread_head = 6 0
29 = ptr 28
30 = ptr 31";

const TASK: &str = "31 task_struct = struct 104
  stack = 5 0
  tasks = 6 64
  pid = 4 192
  tgid = 4 224
  real_parent = 30 256
  children = 6 320
  sibling = 6 448
  group_leader = 30 576
  signal = 29 640
  thread_node = 6 704";

const TASK_WITH_PIDS: &str = "31 task_struct = struct 128
  stack = 5 0
  tasks = 6 64
  pid = 4 192
  tgid = 4 224
  real_parent = 30 256
  children = 6 320
  sibling = 6 448
  group_leader = 30 576
  signal = 29 640
  thread_node = 6 704
  pid_links = 33 832
  thread_pid = 34 960";

const ITEM: &str = "32 item = struct 64
  link = 6 0
  hnode = 8 128
  key = 4 256
  small = 4 288 3
  rb = 11 320";

const PIDS: &str = "33 = array 0 8 3 1
34 = ptr 36
35 = array 0 10 3 1
36 pid = struct 16
  count = 4 0
  level = 3 32
  tasks = 35 64
  numbers = 38 128
37 upid = struct 16
  nr = 4 0
  ns = 5 64
38 = array 0 37 3 0
39 idr = struct 24
  idr_rt = 18 0
  idr_base = 3 128
  idr_next = 3 160";
